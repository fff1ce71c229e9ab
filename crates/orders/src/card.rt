// Cards: a deadline day, a class and a client's name, compared in that order, the lesser ahead.
ghost use Rattle.std.specs.Prelude.{◌≡◌, ◌↔◌, IsTrue};
ghost use Rattle.orders.specs.Card.{card_not_behind, card_canonical, card_equals, card_made, card_written, card_reading, day_of, class_of, name_of};
ghost use Rattle.orders.specs.Refusal.{reply, priority_refusal};
ghost use Rattle.std.proofs.Common.{rules};
ghost use Rattle.std.specs.Cmp.Rules.{comparing};
ghost use Rattle.orders.specs.WrittenForms.{card_back, card_only};

use crate::bytes::{first_two, joined, last_eight, two_bytes};
use crate::priority::{Priority, PriorityFault};
use crate::written::Written;

// The greatest deadline day: the greatest number of sixteen bits.
pub const MOST_DAY: u32 = 65_535;

// The greatest class.
pub const MOST_CLASS: u8 = 15;

// A client's card. Day 0 means no deadline. The name is eight bytes held as one number, the first byte
// highest. A class above `MOST_CLASS` held means `MOST_CLASS`.
#[derive(Clone, Copy, Debug)]
pub struct Card {
    day: u16,
    class: u8,
    name: u64,
}

impl Card {
    pub fn new(day: u32, class: u32, name: u64) -> Result<Card, PriorityFault>
        ensures { reply priority_refusal result ≡ card_made day class name }
    {
        if day > MOST_DAY || class > u32::from(MOST_CLASS) {
            return Err(PriorityFault::OutOfBounds);
        }
        // The bounds alone decide: a conversion that refuses by itself would leave the greatest day untested.
        Ok(Card {
            day: day as u16,
            class: class as u8,
            name,
        })
    }

    pub fn day(&self) -> u16
        ensures { result ≡ day_of self.now }
    {
        self.day // 0 where there is no deadline
    }

    pub fn class(&self) -> u8
        ensures { result ≡ class_of self.now }
    {
        self.class.min(MOST_CLASS)
    }

    pub fn name(&self) -> u64
        ensures { result ≡ name_of self.now }
    {
        self.name // its first byte highest
    }
}

impl Priority for Card {
    ghost not_behind = { card_not_behind };

    ghost canonical = { card_canonical };

    ghost total = { Prim.search rules };

    ghost transitive = { Prim.search rules };

    ghost idempotent = { Prim.search rules };

    ghost unseen = { Prim.search rules };

    // Part by part: a comparison of the three as a tuple took 1.4 to 1.6 times as long.
    fn not_behind(&self, other: &Card) -> bool {
        if self.day() != other.day() {
            self.day() < other.day()
        } else if self.class() != other.class() {
            self.class() < other.class()
        } else {
            self.name() <= other.name()
        }
    }

    fn canonical(&self) -> Card {
        Card {
            day: self.day(),
            class: self.class(),
            name: self.name(),
        }
    }
}

// Two cards are equal where they mean the same. By hand: a derive would tell apart two held classes above the bound.
impl PartialEq for Card {
    ghost eq = { card_equals };

    ghost laws = { Prim.search (comparing, rules) };

    fn eq(&self, other: &Card) -> bool
        ensures value { result ≡ card_equals self.now other.now }
        ensures meaning { IsTrue result ↔ (card_canonical self.now ≡ card_canonical other.now) }
    {
        (self.day(), self.class(), self.name()) == (other.day(), other.class(), other.name())
    }
}

impl Written for Card {
    ghost written = { card_written };

    ghost reading = { card_reading };

    ghost back = { card_back };

    ghost only = { card_only };

    fn write(&self) -> [u8; 12] {
        let [high, low] = two_bytes(self.day());
        joined([high, low, self.class(), 0], self.name())
    }

    fn read(bytes: &[u8; 12]) -> Result<Card, PriorityFault> {
        let [_, _, class, 0, ..] = *bytes else {
            return Err(PriorityFault::OutOfBounds);
        };
        Card::new(
            u32::from(first_two(bytes)),
            u32::from(class),
            last_eight(bytes),
        )
    }
}

#[cfg(test)]
mod tests {
    use super::*;
    use std::test::Fail;

    // A card as held: its day, class and name.
    type Held = (u16, u8, u64);

    fn card((day, class, name): Held) -> Card {
        Card { day, class, name }
    }

    // Two held cards; whether the first is not behind the second, the second not behind the first, and the two are the same.
    const PAIRS: [(Held, Held, bool, bool, bool); 7] = [
        ((3, 2, 9), (3, 2, 9), true, true, true),
        ((0, 9, 9), (1, 0, 0), true, false, false),
        ((3, 2, 9), (3, 3, 0), true, false, false),
        ((3, 2, 9), (3, 2, 8), false, true, false),
        ((65_535, 0, 0), (0, 15, u64::MAX), false, true, false),
        ((3, 200, 9), (3, 15, 9), true, true, true),
        ((3, 200, 9), (3, 16, 8), false, true, false),
    ];

    #[test]
    fn compares(rt: HostRuntime) {
        for (a, b, first, second, same) in PAIRS {
            let (a, b) = (card(a), card(b));
            assert_eq!(rt; a.not_behind(&b), first);
            assert_eq!(rt; b.not_behind(&a), second);
            assert_eq!(rt; a == b, same);
        }
    }

    const NAME: u64 = 0x6162_6364_6566_6768;

    // A held card, its written form.
    const FORMS: [(Held, [u8; 12]); 3] = [
        ((0, 0, 0), [0; 12]),
        (
            (0x0102, 7, NAME),
            [1, 2, 7, 0, b'a', b'b', b'c', b'd', b'e', b'f', b'g', b'h'],
        ),
        ((65_535, 99, 1), [0xff, 0xff, 15, 0, 0, 0, 0, 0, 0, 0, 0, 1]),
    ];

    // Twelve bytes that write no card.
    const NONE: [[u8; 12]; 2] = [
        [0, 1, 16, 0, 0, 0, 0, 0, 0, 0, 0, 0],
        [0, 1, 15, 1, 0, 0, 0, 0, 0, 0, 0, 0],
    ];

    #[test]
    fn written(rt: HostRuntime) -> Result<(), Fail> {
        for (held, bytes) in FORMS {
            let card = card(held);
            assert_eq!(rt; card.write(), bytes);
            assert_eq!(rt; <Card as Written>::read(&bytes)?, card);
        }
        for bytes in NONE {
            assert!(rt; <Card as Written>::read(&bytes).is_err());
        }
        assert!(rt; Card::new(65_536, 0, 0).is_err());
        assert!(rt; Card::new(0, 16, 0).is_err());
        assert_eq!(rt; Card::new(0, 15, 3)?, card((0, 15, 3)));
        Ok(())
    }
}
