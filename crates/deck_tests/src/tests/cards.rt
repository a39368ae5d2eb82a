ghost use Rattle.job_devices.specs.States.{untold_source};

use card_reader::{CardStop, ReadingFault, read_job};
use job_devices::{Failed, Source, SureSource};
use std::test::Fail;

// Gives a byte a read, and fails once after the third.
#[derive(Drop)]
struct SlowSource {
    inner: SureSource,
    reads: u8,
    faults: u64,
}

impl Source for SlowSource {
    ghost given = { λ s. untold_source s.faults };

    fn read(&mut self, buf: &mut [u8]) -> Result<usize, Failed> {
        self.reads = self.reads.saturating_add(1);
        if self.reads == 4 {
            self.faults = self.faults.saturating_add(1);
            return Err(Failed);
        }
        self.inner.read(&mut buf[..1])
    }
}

#[test]
fn a_fault_between_short_reads_is_reported(rt: HostRuntime) -> Result<(), Fail> {
    let alloc = rt.alloc();
    let mut source = SlowSource {
        inner: SureSource::new(alloc, b"ROWS\nEND")?,
        reads: 0,
        faults: 0,
    };
    assert_eq!(rt;
        read_job(alloc, &mut source).err(),
        Some(CardStop::Fault(ReadingFault::Source))
    );
    let cards = read_job(alloc, &mut source)?;
    assert_eq!(rt; cards.count(), 2);
    assert_eq!(rt; cards.card(1).bytes(), b"S".as_slice());
    assert_eq!(rt; cards.card(2).bytes(), b"END".as_slice());
    Ok(())
}
