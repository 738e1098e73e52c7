ghost use Rattle.std.specs.Prelude.{◌≡◌, ℕ, ◌+◌, ◌≤◌, List, ◌++◌, length, drop, IfOk, Ok, Result};
ghost use Rattle.wire.specs.Refusals.{Refusal, reported};
ghost use Rattle.wire.specs.Writing.{told, ending, after};
ghost use Rattle.nodes.specs.Values.{valued, verdict};

use wire::{ReadFault, WriteFault};

// A kind of node: what follows the name in its message.
pub trait NodeKind: Sized {
    // The tag of such a node.
    ghost code: { ℕ };

    // What follows the name, as a value.
    ghost Rest: { Type 0 };

    // The value of what was read from a message.
    ghost rest_in: { List ℕ → Self → Rest };

    // What the bytes behind a name, which stand at a place, are read as.
    ghost reads: { ℕ → List ℕ → Result Rest Refusal };

    // What the bytes behind a name are found as, by their fields alone, where texts are not judged again.
    ghost finds: { ℕ → List ℕ → Result Rest Refusal };

    // The bytes that a value is written as.
    ghost writes: { Rest → List ℕ };

    // The values that can be written.
    ghost Sound: { Rest → Type 0 };

    // Where the texts of what was found are, in the bytes behind a name, which stand at a place.
    ghost Places: { ℕ → List ℕ → Self → Type 0 };

    fn tag() -> u8
        ensures { result ≡ code };

    // What follows the name in a node's message, from a place on.
    fn read_rest(message: &[u8], start: usize) -> Result<Self, ReadFault>
        ensures value { valued rest_in message.now result ≡ reads start (drop start message.now) }
        ensures places { IfOk result (Places start (drop start message.now)) };

    // The same, by the fields alone: texts are not judged again. What is found lies in the message: bytes behind it change nothing.
    fn find_rest(message: &[u8], start: usize) -> Result<Self, ReadFault>
        ensures value { valued rest_in message.now result ≡ finds start (drop start message.now) }
        ensures places { IfOk result (Places start (drop start message.now)) }
        ensures within { IfOk result (λ n. (more : List ℕ) → rest_in (message.now ++ more) n ≡ rest_in message.now n) };

    // What a reader would say of what follows the name, if it stood written at a place.
    fn judge_rest(&self, text: &[u8], start: u32) -> Result<(), ReadFault>
        ensures { reported result ≡ verdict (reads start (writes (rest_in text.now self.now))) };

    // Writes what follows the name, whose texts lie in `text`, from a place of the buffer on, and answers the place behind it.
    fn write_rest(&self, text: &[u8], buffer: &mut [u8], start: usize) -> Result<usize, WriteFault>
        ensures answer { told result ≡ ending buffer.old start (writes (rest_in text.now self.now)) }
        ensures buffer { buffer.new ≡ after buffer.old start (writes (rest_in text.now self.now)) };

    // How many bytes that takes.
    fn rest_length(&self, text: &[u8]) -> usize
        ensures value { result ≡ length (writes (rest_in text.now self.now)) }
        ensures short { result ≤ length text.now + 100 };

    // A kind accepts the bytes that it writes and no others,
    ghost accepts: { (p : ℕ) (bs : List ℕ) (x : Rest) → reads p bs ≡ Ok x → (writes x ≡ bs) × Sound x };

    // and reads back what it writes.
    ghost returns: { (p : ℕ) (x : Rest) → Sound x → reads p (writes x) ≡ Ok x };

    // What is read is also found.
    ghost kept: { (p : ℕ) (bs : List ℕ) (x : Rest) → reads p bs ≡ Ok x → finds p bs ≡ Ok x };
}
