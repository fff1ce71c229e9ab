// Weights: decoded image bytes, the lesser ahead.
ghost use Rattle.std.specs.Prelude.{◌≡◌, ◌↔◌, IsTrue};
ghost use Rattle.orders.specs.Refusal.{reply, priority_refusal};
ghost use Rattle.orders.specs.Weight.{decoded, weight_not_behind, weight_canonical, weight_equals, weight_made, weight_written, weight_reading};
ghost use Rattle.std.proofs.Common.{rules};
ghost use Rattle.std.specs.Cmp.Rules.{comparing};
ghost use Rattle.orders.specs.WrittenForms.{weight_back, weight_only};

use crate::bytes::{joined, last_eight};
use crate::priority::{Priority, PriorityFault};
use crate::written::Written;

// The greatest weight.
pub const MOST_BYTES: u64 = 999_999_999_999;

// The decoded bytes of a folder's images, at most `MOST_BYTES`: a greater number held means `MOST_BYTES`.
#[derive(Clone, Copy, Debug)]
pub struct Weight {
    held: u64,
}

impl Weight {
    pub fn new(bytes: u64) -> Result<Weight, PriorityFault>
        ensures { reply priority_refusal result ≡ weight_made bytes }
    {
        if bytes <= MOST_BYTES {
            Ok(Weight { held: bytes })
        } else {
            Err(PriorityFault::OutOfBounds)
        }
    }

    pub fn bytes(&self) -> u64
        ensures { result ≡ decoded self.now }
    {
        self.held.min(MOST_BYTES)
    }
}

impl Priority for Weight {
    ghost not_behind = { weight_not_behind };

    ghost canonical = { weight_canonical };

    ghost total = { Prim.search rules };

    ghost transitive = { Prim.search rules };

    ghost idempotent = { Prim.search rules };

    ghost unseen = { Prim.search rules };

    fn not_behind(&self, other: &Weight) -> bool {
        self.bytes() <= other.bytes()
    }

    fn canonical(&self) -> Weight {
        Weight { held: self.bytes() }
    }
}

// Two weights are equal where they mean the same. By hand: a derive would tell apart two held numbers above the bound.
impl PartialEq for Weight {
    ghost eq = { weight_equals };

    ghost laws = { Prim.search (comparing, rules) };

    fn eq(&self, other: &Weight) -> bool
        ensures value { result ≡ weight_equals self.now other.now }
        ensures meaning { IsTrue result ↔ (weight_canonical self.now ≡ weight_canonical other.now) }
    {
        self.bytes() == other.bytes()
    }
}

impl Written for Weight {
    ghost written = { weight_written };

    ghost reading = { weight_reading };

    ghost back = { weight_back };

    ghost only = { weight_only };

    fn write(&self) -> [u8; 12] {
        joined([0; 4], self.bytes())
    }

    fn read(bytes: &[u8; 12]) -> Result<Weight, PriorityFault> {
        let [0, 0, 0, 0, ..] = *bytes else {
            return Err(PriorityFault::OutOfBounds);
        };
        Weight::new(last_eight(bytes))
    }
}

#[cfg(test)]
mod tests {
    use super::*;
    use std::test::Fail;

    const OVER: u64 = 1_000_000_000_000;

    // Two held numbers; whether the first is not behind the second, the second not behind the first, and the two are the same.
    const PAIRS: [(u64, u64, bool, bool, bool); 6] = [
        (5, 5, true, true, true),
        (0, 5, true, false, false),
        (7, 5, false, true, false),
        (MOST_BYTES, 0, false, true, false),
        (OVER, MOST_BYTES, true, true, true),
        (OVER, u64::MAX, true, true, true),
    ];

    #[test]
    fn compares(rt: HostRuntime) {
        for (a, b, first, second, same) in PAIRS {
            let (a, b) = (Weight { held: a }, Weight { held: b });
            assert_eq!(rt; a.not_behind(&b), first);
            assert_eq!(rt; b.not_behind(&a), second);
            assert_eq!(rt; a == b, same);
        }
    }

    // A held number, its written form.
    const FORMS: [(u64, [u8; 12]); 4] = [
        (0, [0, 0, 0, 0, 0, 0, 0, 0, 0, 0, 0, 0]),
        (0x0102_0304, [0, 0, 0, 0, 0, 0, 0, 0, 1, 2, 3, 4]),
        (
            MOST_BYTES,
            [0, 0, 0, 0, 0, 0, 0, 0xe8, 0xd4, 0xa5, 0x0f, 0xff],
        ),
        (OVER, [0, 0, 0, 0, 0, 0, 0, 0xe8, 0xd4, 0xa5, 0x0f, 0xff]),
    ];

    // Twelve bytes that write no weight.
    const NONE: [[u8; 12]; 3] = [
        [0, 0, 0, 1, 0, 0, 0, 0, 0, 0, 0, 5],
        [0, 0, 0, 0, 0, 0, 0, 0xe8, 0xd4, 0xa5, 0x10, 0],
        [0xff; 12],
    ];

    #[test]
    fn written(rt: HostRuntime) -> Result<(), Fail> {
        for (held, bytes) in FORMS {
            let w = Weight { held };
            assert_eq!(rt; w.write(), bytes);
            assert_eq!(rt; <Weight as Written>::read(&bytes)?, w);
        }
        for bytes in NONE {
            assert!(rt; <Weight as Written>::read(&bytes).is_err());
        }
        assert!(rt; Weight::new(OVER).is_err());
        Ok(())
    }
}
