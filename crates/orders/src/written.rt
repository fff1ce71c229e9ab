// The interface of a written form: twelve bytes for each priority.
ghost use Rattle.std.specs.Prelude.{◌≡◌, ℕ, List};
ghost use Rattle.orders.specs.Bytes.{Twelve};
ghost use Rattle.orders.specs.Refusal.{Told, told, reply, priority_refusal};

use crate::priority::{Priority, PriorityFault};

// The length of a written priority.
pub const WRITTEN_LENGTH: usize = 12;

// A kind of priority that has a written form.
pub trait Written: Priority {
    // The bytes that write what a priority means.
    ghost written: { Self → List ℕ };

    // The priority that bytes write, or refused.
    ghost reading: { List ℕ → Told Self };

    fn write(&self) -> [u8; 12]
        ensures { result ≡ written self.now };

    fn read(bytes: &[u8; 12]) -> Result<Self, PriorityFault>
        ensures { reply priority_refusal result ≡ reading bytes.now };

    // What is written reads back as the same priority ..
    ghost back: { (p : Self) → reading (written p) ≡ told (Self.Priority.canonical p) };

    // .. and no other twelve bytes read as it.
    ghost only: { (bs : List ℕ) (p : Self) → Twelve bs → reading bs ≡ told p → bs ≡ written p };
}

// Writes a priority and reads it: the same priority comes back.
pub fn reads_back<P: Written>(p: &P) -> Result<P, PriorityFault>
    ensures { reply priority_refusal result ≡ told (P.Priority.canonical p.now) }
{
    P::read(&p.write())
}

// Reads twelve bytes: those that read as a priority are the ones that write it.
pub fn reads_only<P: Written>(bytes: &[u8; 12]) -> Result<P, PriorityFault>
    ensures value { reply priority_refusal result ≡ P.reading bytes.now }
    ensures only { (p : P) → reply priority_refusal result ≡ told p → bytes.now ≡ P.written p }
{
    P::read(bytes)
}
