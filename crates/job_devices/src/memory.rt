// Sources and sinks in memory, for tests and for whoever has the whole job at hand.
ghost use Rattle.std.specs.Prelude.{◌≡◌, ◌↔◌, ◌<◌, ◌≤◌, ◌-◌, ◌^◌, [], ◌++◌, Option, Some, length, take, min, if◌then◌else◌, is_err, Contains, IfOk, IsOk};
ghost use Rattle.std.specs.Prelude.{IsErr, IsErrOf};
ghost use Rattle.std.specs.Option.{ForSome};
ghost use Rattle.job_devices.specs.Calls.{IsRead, IsWrite};

use crate::{Failed, NoMemory, Sink, Source, WriteStop};
use std::alloc::Global;

/// Gives the bytes that it holds, so many at a read at most. The reads whose numbers are listed fail.
#[derive(Drop)]
pub struct MemorySource {
    bytes: Vec<u8>,
    at: usize,
    piece: usize,
    fails: Vec<u64>,
    reads: u64,
    faults: u64,
    ghost in_range: { at ≤ length bytes.items },
    ghost some: { 0 < piece },
}

/// Gives the bytes that it holds, and never fails.
#[derive(Drop)]
pub struct SureSource {
    bytes: Vec<u8>,
    at: usize,
    ghost in_range: { at ≤ length bytes.items },
}

/// Keeps what is written. The writes whose numbers are listed fail.
#[derive(Drop)]
pub struct MemorySink {
    bytes: Vec<u8>,
    fails: Vec<u64>,
    writes: u64,
    faults: u64,
    refusals: u64,
    stopped: Option<usize>,
    ghost written: { ForSome stopped (λ count. count ≤ length bytes.items) },
}

/// Keeps what is written, and fails only because memory runs out.
#[derive(Drop)]
pub struct SureSink {
    bytes: Vec<u8>,
    refusals: u64,
    stopped: Option<usize>,
    ghost written: { ForSome stopped (λ count. count ≤ length bytes.items) },
}

// Copies as long a prefix as there is room for, but no more than `most` bytes, and says how long it is.
fn copy_prefix(from: &[u8], buf: &mut [u8], most: usize) -> usize
    ensures count { result ≡ min (min (length from.now) (length buf.old)) most }
    ensures length { length buf.new ≡ length buf.old }
    ensures copied { take result buf.new ≡ take result from.now }
{
    let count = from.len().min(buf.len()).min(most);
    buf[..count].copy_from_slice(&from[..count]);
    count
}

impl MemorySource {
    ghost use Rattle.job_devices.specs.Memory.{source_left, failing_reads, reads_made, reads_failed, piece_limit};

    /// A source of a copy of these bytes, whose reads with these numbers fail, and whose others give as much as there is room
    /// for.
    pub fn new(alloc: Global, bytes: &[u8], fails: &[u64]) -> Result<MemorySource, NoMemory>
        ensures bytes { IfOk result (λ source. source_left source ≡ bytes.now) }
        ensures piece { IfOk result (λ source. piece_limit source ≡ 2 ^ 64 - 1) }
        ensures fails { IfOk result (λ source. failing_reads source ≡ fails.now) }
        ensures reads { IfOk result (λ source. reads_made source ≡ 0) }
        ensures faults { IfOk result (λ source. reads_failed source ≡ 0) }
    {
        MemorySource::in_pieces(alloc, bytes, fails, usize::MAX)
    }

    /// As `new`, but a read gives at most `piece` bytes.
    pub fn in_pieces(
        alloc: Global,
        bytes: &[u8],
        fails: &[u64],
        piece: usize,
    ) -> Result<MemorySource, NoMemory>
        requires { 0 < piece }
        ensures bytes { IfOk result (λ source. source_left source ≡ bytes.now) }
        ensures piece { IfOk result (λ source. piece_limit source ≡ piece) }
        ensures fails { IfOk result (λ source. failing_reads source ≡ fails.now) }
        ensures reads { IfOk result (λ source. reads_made source ≡ 0) }
        ensures faults { IfOk result (λ source. reads_failed source ≡ 0) }
    {
        Ok(MemorySource {
            bytes: Vec::from_slice(alloc, bytes)?,
            at: 0,
            piece,
            fails: Vec::from_slice(alloc, fails)?,
            reads: 0,
            faults: 0,
        })
    }
}

impl Source for MemorySource {
    ghost use Rattle.job_devices.specs.Causes.{next_count};
    ghost use Rattle.job_devices.specs.Memory.{source_state, source_left, failing_reads, reads_made, reads_failed, piece_limit};

    ghost given = { λ s. source_state s };

    fn read(&mut self, buf: &mut [u8]) -> Result<usize, Failed>
        ensures read { IsRead (source_state self.old) (source_state self.new) result buf.new }

        // All that is left is given, as far as the buffer has room for it and a piece may have so many bytes.
        ensures size { IfOk result (λ count.
            count ≡ min (min (length (source_left self.old)) (length buf.old))
            (piece_limit self.old)) }
        ensures piece { piece_limit self.new ≡ piece_limit self.old }

        // The listed reads fail, and no others.
        ensures listed { IsErr result ↔ Contains (failing_reads self.old) (reads_made self.new) }
        ensures fails { failing_reads self.new ≡ failing_reads self.old }
        ensures reads { reads_made self.new ≡ next_count (reads_made self.old) }
        ensures count { reads_failed self.new ≡ (if is_err result then next_count
            (reads_failed self.old) else reads_failed self.old) }
    {
        self.reads = self.reads.saturating_add(1);
        if self.fails.contains(&self.reads) {
            self.faults = self.faults.saturating_add(1);
            return Err(Failed);
        }
        let count = copy_prefix(&self.bytes[self.at..], buf, self.piece);
        self.at += count;
        Ok(count)
    }
}

impl SureSource {
    ghost use Rattle.job_devices.specs.Memory.{sure_left};

    /// A source of a copy of these bytes.
    pub fn new(alloc: Global, bytes: &[u8]) -> Result<SureSource, NoMemory>
        ensures { IfOk result (λ source. sure_left source ≡ bytes.now) }
    {
        Ok(SureSource {
            bytes: Vec::from_slice(alloc, bytes)?,
            at: 0,
        })
    }
}

impl Source for SureSource {
    ghost use Rattle.job_devices.specs.Memory.{sure_source_state};

    ghost given = { λ s. sure_source_state s };

    fn read(&mut self, buf: &mut [u8]) -> Result<usize, Failed> {
        let count = copy_prefix(&self.bytes[self.at..], buf, usize::MAX);
        self.at += count;
        Ok(count)
    }
}

impl MemorySink {
    ghost use Rattle.job_devices.specs.Memory.{sink_bytes, failing_writes, writes_made, writes_failed, writes_refused};

    /// A sink that holds nothing yet, whose writes with these numbers fail.
    pub fn new(alloc: Global, fails: &[u64]) -> Result<MemorySink, NoMemory>
        ensures bytes { IfOk result (λ sink. sink_bytes sink ≡ []) }
        ensures fails { IfOk result (λ sink. failing_writes sink ≡ fails.now) }
        ensures writes { IfOk result (λ sink. writes_made sink ≡ 0) }
        ensures faults { IfOk result (λ sink. writes_failed sink ≡ 0) }
        ensures refusals { IfOk result (λ sink. writes_refused sink ≡ 0) }
    {
        Ok(MemorySink {
            bytes: Vec::new(alloc),
            fails: Vec::from_slice(alloc, fails)?,
            writes: 0,
            faults: 0,
            refusals: 0,
            stopped: None,
        })
    }

    /// What was written.
    pub fn bytes(&self) -> &[u8]
        ensures { result.now ≡ sink_bytes self.now }
    {
        &self.bytes
    }
}

impl Sink for MemorySink {
    ghost use Rattle.job_devices.specs.Causes.{next_count};
    ghost use Rattle.job_devices.specs.Memory.{sink_bytes, failing_writes, writes_made, writes_failed, writes_refused, sink_state};

    ghost taken = { λ s. sink_state s };

    fn write(&mut self, piece: &[u8]) -> Result<usize, WriteStop>
        ensures write { IsWrite (sink_state self.old) (sink_state self.new) result piece.now }

        // The listed writes fail, and no others.
        ensures listed { IsErrOf result WriteStop.Failed ↔ Contains (failing_writes self.old)
            (writes_made self.new) }
        ensures fails { failing_writes self.new ≡ failing_writes self.old }
        ensures writes { writes_made self.new ≡ next_count (writes_made self.old) }
        ensures failed { IsErrOf result WriteStop.Failed → writes_failed self.new ≡ next_count
            (writes_failed self.old) }
        ensures others { (IsErrOf result WriteStop.Failed → ⊥) → writes_failed self.new ≡
            writes_failed self.old }

        // Where it found no memory that is counted, and else nowhere.
        ensures refused { IsErrOf result WriteStop.NoMemory → writes_refused self.new ≡ next_count
            (writes_refused self.old) }
        ensures unrefused { (IsErrOf result WriteStop.NoMemory → ⊥) → writes_refused self.new ≡
            writes_refused self.old }
    {
        self.writes = self.writes.saturating_add(1);
        if self.fails.contains(&self.writes) {
            self.faults = self.faults.saturating_add(1);
            self.stopped = Some(self.bytes.len());
            return Err(WriteStop::Failed);
        }
        if self.bytes.extend_from_slice(piece).is_err() {
            self.refusals = self.refusals.saturating_add(1);
            self.stopped = Some(self.bytes.len());
            return Err(WriteStop::NoMemory);
        }
        Ok(piece.len())
    }
}

impl SureSink {
    ghost use Rattle.job_devices.specs.Memory.{sure_bytes};

    /// A sink that holds nothing yet.
    pub fn new(alloc: Global) -> Result<SureSink, NoMemory>
        ensures ok { IsOk result }
        ensures bytes { IfOk result (λ sink. sure_bytes sink ≡ []) }
    {
        Ok(SureSink {
            bytes: Vec::new(alloc),
            refusals: 0,
            stopped: None,
        })
    }

    /// What was written.
    pub fn bytes(&self) -> &[u8]
        ensures { result.now ≡ sure_bytes self.now }
    {
        &self.bytes
    }
}

impl Sink for SureSink {
    ghost use Rattle.job_devices.specs.Memory.{sure_sink_state};

    ghost taken = { λ s. sure_sink_state s };

    fn write(&mut self, piece: &[u8]) -> Result<usize, WriteStop> {
        if self.bytes.extend_from_slice(piece).is_err() {
            self.refusals = self.refusals.saturating_add(1);
            self.stopped = Some(self.bytes.len());
            return Err(WriteStop::NoMemory);
        }
        Ok(piece.len())
    }
}
