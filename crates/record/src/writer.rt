//! What writes bytes, one at a time.
ghost use Rattle.std.specs.Prelude.{◌≡◌, ℕ, List};
ghost use Rattle.record.specs.Writes.{Write, write, done};
ghost use Rattle.record.specs.Cutting.{cut_writer, cut_wrote, cut_next};

use crate::SLOT;

/// Writes bytes one at a time. Code that is generic over it cannot see whether it will be cut,
/// and a contract that holds for every writer fixes the writes that the code makes and their order.
pub trait ByteWriter {
    // What one write leaves of the bytes.
    ghost wrote: { Self → Write → List ℕ → List ℕ };

    // The writer after one write.
    ghost next: { Self → Self };

    // Place and byte are passed apart, here and below: a struct of them would be built only to be taken apart.
    /// Writes one byte to a place.
    fn put(&mut self, bytes: &mut [u8], place: usize, byte: u8)
        ensures bytes { bytes.new ≡ wrote self.old (write place byte) bytes.old }
        ensures writer { self.new ≡ next self.old };
}

/// One byte to a place; none past the end.
#[tactic(auto, using(std::proofs::lemmas::List::set_past))]
fn put_byte(bytes: &mut [u8], place: usize, byte: u8)
    ensures { bytes.new ≡ done (write place byte) bytes.old }
{
    if place < bytes.len() {
        bytes[place] = byte;
    }
}

/// The writer of a program that runs on: each write is done.
#[derive(Clone, Copy)]
pub struct Uncut;

impl ByteWriter for Uncut {
    ghost wrote = { λ _ w s. done w s };

    ghost next = { λ p. p };

    fn put(&mut self, bytes: &mut [u8], place: usize, byte: u8) {
        put_byte(bytes, place, byte);
    }
}

/// The writer of a program that is cut: so many writes are done, the next comes out as `junk`
/// unless it is a mark, which stays, and no later one is done.
#[derive(Clone, Copy)]
pub struct CutAfter {
    // None once the cut is over.
    left: Option<usize>,
    junk: u8,
}

impl CutAfter {
    /// Cut after so many writes.
    pub fn new(writes: usize, junk: u8) -> CutAfter
        ensures { result ≡ cut_writer writes junk }
    {
        CutAfter {
            left: Some(writes),
            junk,
        }
    }
}

impl ByteWriter for CutAfter {
    ghost wrote = { cut_wrote };

    ghost next = { cut_next };

    fn put(&mut self, bytes: &mut [u8], place: usize, byte: u8) {
        match self.left {
            None => {}
            Some(0) => {
                self.left = None;
                // A mark is the first byte of a slot.
                if place % SLOT != 0 {
                    put_byte(bytes, place, self.junk);
                }
            }
            Some(left) => {
                self.left = Some(left - 1);
                put_byte(bytes, place, byte);
            }
        }
    }
}
