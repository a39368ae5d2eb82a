// What the calls of a device have to answer, listed, and the first call that answers otherwise.
ghost use Rattle.std.specs.Prelude.{◌<◌, length};

use job_devices::{Failed, Sink, Source, WriteStop, put_all, put_each};

// What a read answers, and what the buffer begins with after it.
pub type Reading = (Result<usize, Failed>, &'static [u8]);

// The place of the first read that answers otherwise than is listed, or leaves another beginning in the buffer.
pub fn other_read<S: Source>(source: &mut S, buf: &mut [u8], readings: &[Reading]) -> Option<usize>
    requires { 0 < length buf.old }
{
    for (place, (answer, start)) in readings.iter().enumerate() {
        if source.read(buf) != *answer || !buf.starts_with(start) {
            return Some(place);
        }
    }
    None
}

// Pieces that are put, one by `put_all` and several by `put_each`, and the answer.
pub type Put = (&'static [&'static [u8]], Result<(), WriteStop>);

// The place of the first put that answers otherwise than is listed.
pub fn other_put<P: Sink>(sink: &mut P, puts: &[Put]) -> Option<usize> {
    for (place, (pieces, wanted)) in puts.iter().enumerate() {
        let answer = match *pieces {
            [piece] => put_all(sink, piece),
            pieces => put_each(sink, pieces),
        };
        if answer != *wanted {
            return Some(place);
        }
    }
    None
}
