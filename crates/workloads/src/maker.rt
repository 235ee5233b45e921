//! Makes traces whose lines name blocks and objects that the tenants hold. While a trace is made, a kernel runs each command, and
//! later lines name the frames and places in its answers.

ghost use Rattle.std.specs.Prelude.{◌≡◌, ◌<◌, MatchOption};
ghost use Rattle.words_core.specs.Requests.{IsAskable};

use crate::digest::Digest;
use crate::load::{Kind, Load};
use crate::numbers::Numbers;
use crate::text::Line;
use kernel_core::Kernel;
use std::alloc::{AllocError, Global};
use words_core::{AdminCommand, Answer, Body, CACHES, Request};

/// The ends of odd lines: seven that are no commands, and a `read` with unusual blanks. A tenant's number comes before each end.
const ODD_LINES: [&[u8]; 8] = [
    b" frobnicate 1\n",
    b" alloc\n",
    b" allot 1\n",
    b" free x\n",
    b" write 0 0\n",
    b" take 12345678901\n",
    b" \t\n",
    b"  read  4096   4 \n",
];

/// The pattern of a new cache is the first 1 to 16 of these bytes.
static PATTERN: [u8; 16] = *b"\xa5\x5a\x01\xfe\xa5\x5a\x02\xfd\xa5\x5a\x03\xfc\xa5\x5a\x04\xfb";

/// What a tenant holds, according to the answers.
#[derive(Debug, Drop)]
struct Tenant {
    /// The first frame of each of its blocks.
    blocks: Vec<u32>,
    objects: Vec<Object>,
    /// The size of the objects of each cache, in bytes.
    sizes: [u32; CACHES],
    /// The number of superblocks that the tenant was granted at the start.
    slots: u32,
}

#[derive(Clone, Copy, Debug)]
struct Object {
    cache: u32,
    place: u32,
    size: u32,
}

/// The part of an answer that a maker uses.
#[derive(Clone, Copy)]
enum Told {
    Frame(u32),
    Object(u32),
    Cache(u32),
    Done,
    Refused,
}

/// A maker of a trace for a load.
#[derive(Debug, Drop)]
pub struct Maker {
    load: Load,
    kernel: Kernel,
    numbers: Numbers,
    /// The kinds of lines, each with as many entries as its weight.
    kinds: Vec<Kind>,
    tenants: Vec<Tenant>,
    /// The bytes that tenants store.
    bytes: [u8; 64],
    /// The line that is being written.
    line: Line,
    pub trace: Vec<u8>,
    /// The digest of all answers.
    pub digest: Digest,
}

impl Maker {
    /// Boots a machine of the load, and begins the trace with the lines that grant superblocks and make caches. The trace has a
    /// capacity of `room` bytes. Fails if memory runs out.
    pub fn new(alloc: Global, load: Load, seed: u64, room: usize) -> Result<Maker, AllocError> {
        let Ok(kernel) = Kernel::boot(alloc, load.config) else {
            return Err(AllocError);
        };
        let mut kinds = Vec::new(alloc);
        for (kind, times) in load.kinds {
            for _ in 0..*times {
                kinds.push(*kind)?;
            }
        }
        let mut tenants = Vec::new(alloc);
        for _ in 0..load.config.tenants {
            tenants.push(Tenant {
                blocks: Vec::with_capacity(alloc, load.most_blocks)?,
                objects: Vec::with_capacity(alloc, load.most_objects)?,
                sizes: [1; CACHES],
                slots: 0,
            })?;
        }
        let mut maker = Maker {
            load,
            kernel,
            numbers: Numbers::new(seed),
            kinds,
            tenants,
            bytes: [0; 64],
            line: Line::new(),
            trace: Vec::with_capacity(alloc, room)?,
            digest: Digest::new(),
        };
        maker.begin()?;
        Ok(maker)
    }

    /// Adds the lines that grant superblocks to the tenants in turn, and the lines that make each tenant's caches.
    fn begin(&mut self) -> Result<(), AllocError> {
        let tenants = self.load.config.tenants.max(1);
        for superblock in 0..self.load.granted {
            let t = superblock % tenants;
            self.grant(t)?;
            if let Some(tenant) = self.tenants.get_mut(t as usize) {
                tenant.slots = tenant.slots.saturating_add(1);
            }
        }
        for t in 0..tenants {
            self.make_caches(t)?;
        }
        Ok(())
    }

    /// Adds this many random lines to the trace. A reset, and a take-back that succeeds, add further lines.
    pub fn make(&mut self, lines: u32) -> Result<(), AllocError> {
        let tenants = self.load.config.tenants.max(1);
        let kinds = u32::try_from(self.kinds.len()).unwrap_or(0);
        for _ in 0..lines {
            let t = self.numbers.below(tenants);
            if kinds > 0 {
                let at = self.numbers.below(kinds) as usize;
                let kind = self.kinds.get(at).copied().unwrap_or(Kind::Odd);
                self.make_line(t, kind)?;
            }
        }
        Ok(())
    }

    /// Adds a line of this kind, and for some kinds further lines.
    fn make_line(&mut self, t: u32, kind: Kind) -> Result<(), AllocError> {
        match kind {
            Kind::Alloc => self.alloc(t),
            Kind::Free => self.free(t),
            Kind::Take => self.take(t),
            Kind::Give => self.give(t),
            Kind::Read => self.read(t),
            Kind::Write => self.write(t),
            Kind::Cache => self.cache_of_any_size(t),
            Kind::Destroy => {
                let cache = self.numbers.below(CACHES as u32);
                self.ask(t, Request::Destroy { cache })?;
                Ok(())
            }
            Kind::Reap => {
                self.ask(t, Request::Reap)?;
                Ok(())
            }
            Kind::Report => self.report(t),
            Kind::Move | Kind::TakeBack | Kind::Reset | Kind::Pool => self.administer_some(t, kind),
            Kind::Odd => self.odd_line(t),
        }
    }

    /// Appends the text of `line` to the trace.
    #[inline(always)]
    fn put_line(&mut self) -> Result<(), AllocError> {
        self.trace.extend_from_slice(self.line.text())
    }

    /// Appends the line of a request to the trace, and runs the request.
    fn ask(&mut self, t: u32, request: Request<'_>) -> Result<Told, AllocError>
        requires { IsAskable request }
    {
        self.line.request(t, &request);
        self.put_line()?;
        let told = match self.kernel.ask(t, request) {
            None => Told::Refused,
            Some((_, answer)) => {
                let told = told_by(&answer);
                if let Answer::Bytes(bytes) = answer {
                    self.digest.add_bytes(bytes);
                }
                told
            }
        };
        self.digest.add(number_of(told));
        Ok(told)
    }

    /// Adds an `alloc` with a random order of the load. If the tenant has the largest number of blocks, adds a `free` instead.
    fn alloc(&mut self, t: u32) -> Result<(), AllocError> {
        let most = self.load.most_blocks;
        if self
            .tenants
            .get(t as usize)
            .is_some_and(|it| it.blocks.len() >= most)
        {
            return self.free(t);
        }
        let orders = self.load.orders;
        let at = self.numbers.below(count_of(orders)) as usize;
        let order = orders.get(at).copied().unwrap_or(0);
        let told = self.ask(t, Request::Alloc { order })?;
        if let (Told::Frame(frame), Some(tenant)) = (told, self.tenants.get_mut(t as usize)) {
            tenant.blocks.push(frame)?;
        }
        Ok(())
    }

    /// Adds a `free` of a random block of the tenant, or of a random frame if the tenant has no block.
    fn free(&mut self, t: u32) -> Result<(), AllocError> {
        let draw = self.numbers.next();
        let mut frame = (draw >> 48) as u32;
        if let Some(tenant) = self.tenants.get_mut(t as usize) {
            if let Some(at) = chosen(draw, tenant.blocks.len()) {
                frame = tenant.blocks.swap_remove(at);
            }
        }
        self.ask(t, Request::Free { frame })?;
        Ok(())
    }

    /// Adds a `take` from a random cache of the load. If the tenant has the largest number of objects, adds a `give` instead.
    fn take(&mut self, t: u32) -> Result<(), AllocError> {
        let most = self.load.most_objects;
        if self
            .tenants
            .get(t as usize)
            .is_some_and(|it| it.objects.len() >= most)
        {
            return self.give(t);
        }
        let cache = self.numbers.below(count_of(self.load.sizes));
        let told = self.ask(t, Request::Take { cache })?;
        if let (Told::Object(place), Some(tenant)) = (told, self.tenants.get_mut(t as usize)) {
            let size = tenant.sizes.get(cache as usize).copied().unwrap_or(1);
            tenant.objects.push(Object { cache, place, size })?;
        }
        Ok(())
    }

    /// Adds a `give` of a random object of the tenant, or of a random place if the tenant has no object.
    fn give(&mut self, t: u32) -> Result<(), AllocError> {
        let draw = self.numbers.next();
        let mut object = Object {
            cache: 0,
            place: (draw >> 40) as u32,
            size: 1,
        };
        if let Some(tenant) = self.tenants.get_mut(t as usize) {
            if let Some(at) = chosen(draw, tenant.objects.len()) {
                object = tenant.objects.swap_remove(at);
            }
        }
        let Object { cache, place, .. } = object;
        self.ask(t, Request::Give { cache, place })?;
        Ok(())
    }

    /// Returns a place in a random block or object of the tenant, and how many bytes a line may read or write there, at most 64.
    /// If no block or object is chosen, returns place 0 and 64 bytes.
    fn some_room(&mut self, t: u32) -> (u32, u32) {
        let draw = self.numbers.next();
        let Some(tenant) = self.tenants.get(t as usize) else {
            return (0, 64);
        };
        if draw % 2 == 0 {
            if let Some(at) = chosen(draw, tenant.blocks.len()) {
                let frame = tenant.blocks.get(at).copied().unwrap_or(0);
                let inside = (draw >> 40) as u32 % 4032;
                return (frame.wrapping_mul(4096).wrapping_add(inside), 64);
            }
        }
        match chosen(draw, tenant.objects.len()) {
            Some(at) => match tenant.objects.get(at) {
                Some(object) => (object.place, object.size.clamp(1, 64)),
                None => (0, 64),
            },
            None => (0, 64),
        }
    }

    /// Adds a `read` of 1 to 64 bytes.
    fn read(&mut self, t: u32) -> Result<(), AllocError> {
        let (place, room) = self.some_room(t);
        let len = self.some_count(room);
        self.ask(t, Request::Read { place, len })?;
        Ok(())
    }

    /// Adds a `write` of 1 to 64 bytes.
    fn write(&mut self, t: u32) -> Result<(), AllocError> {
        let (place, room) = self.some_room(t);
        let len = self.some_count(room);
        let draw = self.numbers.next();
        let at = (draw % 64) as usize;
        self.bytes[at] = (draw >> 56) as u8;
        let bytes = self.bytes;
        let count = (len as usize).min(bytes.len());
        self.ask(
            t,
            Request::Write {
                place,
                bytes: &bytes[..count],
            },
        )?;
        Ok(())
    }

    /// Returns a number of bytes up to `room`: in a third of all calls 1, in a third `room`, and otherwise any number from 1 to
    /// `room`.
    fn some_count(&mut self, room: u32) -> u32 {
        let room = room.max(1);
        match self.numbers.below(3) {
            0 => 1,
            1 => room,
            _ => self.numbers.below(room).saturating_add(1),
        }
    }

    /// Adds a line for each cache that a tenant has at the start.
    fn make_caches(&mut self, t: u32) -> Result<(), AllocError> {
        for size in self.load.sizes {
            self.cache(t, *size, 8)?;
        }
        Ok(())
    }

    fn cache_of_any_size(&mut self, t: u32) -> Result<(), AllocError> {
        let size = self.numbers.below(4096).saturating_add(1);
        let align = 8 << self.numbers.below(6);
        self.cache(t, size, align)
    }

    fn cache(&mut self, t: u32, size: u32, align: u32) -> Result<(), AllocError> {
        let count = self.numbers.below(16) as usize + 1;
        let told = self.ask(
            t,
            Request::Cache {
                size,
                align,
                pattern: &PATTERN[..count],
            },
        )?;
        if let (Told::Cache(cache), Some(tenant)) = (told, self.tenants.get_mut(t as usize)) {
            if let Some(its) = tenant.sizes.get_mut(cache as usize) {
                *its = size;
            }
        }
        Ok(())
    }

    fn report(&mut self, t: u32) -> Result<(), AllocError> {
        self.line.begin(t);
        self.line.word(b" report\n");
        self.put_line()?;
        if let Body::Report(report) = self.kernel.report(t).body {
            self.digest.add(u64::from(report.live));
            for row in report.caches.as_slice() {
                self.digest.add(u64::from(row.live));
            }
        }
        Ok(())
    }

    fn odd_line(&mut self, t: u32) -> Result<(), AllocError> {
        let at = self.numbers.below(8) as usize;
        self.line.begin(t);
        self.line.word(ODD_LINES[at]);
        self.put_line()
    }

    fn grant(&mut self, t: u32) -> Result<(), AllocError> {
        self.line.admin(b"grant", &[t]);
        self.put_line()?;
        self.administer(&AdminCommand::Grant { tenant: t });
        Ok(())
    }

    /// Adds a command of the administrator. A take-back that succeeds is followed by a grant, and a reset by grants and new
    /// caches.
    fn administer_some(&mut self, t: u32, kind: Kind) -> Result<(), AllocError> {
        let slots = self.tenants.get(t as usize).map_or(1, |it| it.slots.max(1));
        let slot = self.numbers.below(slots);
        match kind {
            Kind::Move => {
                self.line.admin(b"move", &[t, slot]);
                self.put_line()?;
                self.administer(&AdminCommand::Move { tenant: t, slot });
                Ok(())
            }
            Kind::TakeBack => {
                self.line.admin(b"takeback", &[t, slot]);
                self.put_line()?;
                if self.administer(&AdminCommand::TakeBack { tenant: t, slot }) {
                    self.grant(t)?;
                }
                Ok(())
            }
            Kind::Reset => self.begin_again(t, slots),
            _ => {
                self.administer(&AdminCommand::Pool);
                self.line.admin(b"pool", &[]);
                self.put_line()
            }
        }
    }

    /// Runs a command of the administrator. Returns true if it was not refused.
    fn administer(&mut self, command: &AdminCommand) -> bool {
        match self.kernel.administer(command) {
            Some(answer) => {
                let told = told_by(&answer);
                self.digest.add(number_of(told));
                !matches!(told, Told::Refused)
            }
            None => {
                self.digest.add(self.kernel.owners().len() as u64);
                true
            }
        }
    }

    fn begin_again(&mut self, t: u32, slots: u32) -> Result<(), AllocError> {
        self.line.admin(b"reset", &[t]);
        self.put_line()?;
        self.administer(&AdminCommand::Reset { tenant: t });
        if let Some(tenant) = self.tenants.get_mut(t as usize) {
            tenant.blocks.clear();
            tenant.objects.clear();
        }
        for _ in 0..slots {
            self.grant(t)?;
        }
        self.make_caches(t)
    }
}

/// Returns the number of elements, or 1 if there are none.
fn count_of(numbers: &[u32]) -> u32
    ensures { 0 < result }
{
    u32::try_from(numbers.len()).unwrap_or(1).max(1)
}

/// Returns an index below `count` that is computed from `draw`, or `None` if `count` is 0.
#[inline(always)]
fn chosen(draw: u64, count: usize) -> Option<usize>
    ensures { MatchOption result (count ≡ 0) (λ at. at < count) }
{
    if count == 0 {
        return None;
    }
    let high = (draw >> 8) & 0xffff_ffff;
    let at = (high.wrapping_mul(count as u64) >> 32) as usize;
    Some(at.min(count - 1))
}

/// Returns the part of an answer that a maker uses.
fn told_by(answer: &Answer<'_>) -> Told {
    match answer {
        Answer::Frame(frame) => Told::Frame(*frame),
        Answer::Object(place) => Told::Object(*place),
        Answer::Cache { cache, .. } => Told::Cache(u32::from(*cache)),
        Answer::Refused(_) => Told::Refused,
        _ => Told::Done,
    }
}

/// Returns the number that the digest gets for an answer.
fn number_of(told: Told) -> u64 {
    match told {
        Told::Frame(frame) => u64::from(frame),
        Told::Object(place) => u64::from(place),
        Told::Cache(cache) => u64::from(cache),
        Told::Done => 1 << 40,
        Told::Refused => 1 << 41,
    }
}
