// Inputs that often match.

ghost use Rattle.std.specs.Prelude.{◌<◌};

use crate::random::Random;
use crate::words::Words;
use std::alloc::Global;
use vdm_kinds::OutOfMemory;

/// Numbers in values are below this bound, so that many are equal. Each name that is bound has its own of them, which it mostly stands
/// for.
const NUMBERS: u32 = 3;

/// A number that no value has which a pattern is made for.
const OTHER: u32 = 7;

/// Patterns of every kind in one another, each with a value that mostly matches it, one after the other.
#[derive(Drop)]
pub(crate) struct Inputs {
    random: Random,
    words: Words,
}

impl Inputs {
    pub(crate) fn new(alloc: Global, seed: u64) -> Inputs {
        Inputs {
            random: Random::new(seed),
            words: Words::new(alloc),
        }
    }

    /// The words of the next input, which nests up to three deep.
    pub(crate) fn next(&mut self, alloc: Global) -> Result<String, OutOfMemory> {
        self.words.clear();
        let depth = 1 + self.random.below(3);
        self.part(depth);
        Ok(self.words.line(alloc)?)
    }

    // A part that nests at most so many more.
    #[cycle(nesting)]
    fn part(&mut self, depth: u32) {
        match depth.checked_sub(1) {
            Some(inner) => self.compound(inner),
            None => self.leaf(),
        }
    }

    #[cycle(nesting)]
    fn compound(&mut self, inner: u32) {
        match self.random.below(10) {
            0 | 1 => self.list("set", inner),
            2 => self.list("seq", inner),
            3 | 4 => self.list("tuple", inner),
            5 => self.record(inner),
            6 => self.map(inner),
            7 | 8 => self.join(inner),
            _ => self.leaf(),
        }
    }

    #[cycle(nesting)]
    fn parts(&mut self, count: u32, inner: u32) {
        for _part in 0..count {
            self.part(inner);
        }
    }

    // One in twelve has a value more than patterns.
    #[cycle(nesting)]
    fn list(&mut self, word: &str, inner: u32) {
        let count = 1 + self.random.below(3);
        self.parts(count, inner);
        self.words.pattern_of(word, count);
        if self.random.once_in(12) {
            self.words.value_of("int", 9);
            self.words.value_of(word, count + 1);
        } else {
            self.words.value_of(word, count);
        }
    }

    #[cycle(nesting)]
    fn record(&mut self, inner: u32) {
        let count = 1 + self.random.below(2);
        self.parts(count, inner);
        let (asked, made) = match self.random.below(8) {
            0..=2 => ("record 6", "record 4 6"),
            3 | 4 => ("record-of 5 6", "record 5 6"),
            5 => ("record 7", "record 4 7"),
            6 => ("record 6", "record 5 6"),
            _ => ("record 8", "record 4 8"),
        };
        self.words.pattern_of(asked, count);
        self.words.value_of(made, count);
    }

    // The keys are different numbers, in any order.
    #[cycle(nesting)]
    fn map(&mut self, inner: u32) {
        let count = 1 + self.random.below(2);
        let first = self.random.below(count);
        for key in 0..count {
            self.number((key + first) % count);
            self.part(inner);
            self.words.pattern("maplet");
            self.words.value_of("tuple", 2);
        }
        self.words.pattern_of("map", count);
        self.words.value_of("map", count);
    }

    #[cycle(nesting)]
    fn join(&mut self, inner: u32) {
        let count = 2 + self.random.below(2);
        let mut items: u32 = 0;
        for _piece in 0..count {
            let more = self.piece(inner);
            items = items.saturating_add(more);
        }
        self.words.pattern_of("join", count);
        self.words.value_of("seq", items);
    }

    // A piece of a sequence; how many items it has.
    #[cycle(nesting)]
    fn piece(&mut self, inner: u32) -> u32 {
        match self.random.below(5) {
            0 | 1 => {
                let items = self.numbers(NUMBERS);
                self.any_name();
                items
            }
            2 => {
                let items = 1 + self.random.below(2);
                self.parts(items, inner);
                self.words.pattern_of("seq", items);
                items
            }
            3 => {
                let items = self.numbers(NUMBERS);
                self.words.pattern("any");
                items
            }
            _ => {
                self.text();
                2
            }
        }
    }

    fn leaf(&mut self) {
        match self.random.below(10) {
            0..=5 => {
                let number = self.random.below(NUMBERS);
                self.number(number);
            }
            6 => self.sequence(),
            7 => self.literal(),
            8 => self.empty(),
            _ => {
                self.any_number();
                self.words.pattern("any");
            }
        }
    }

    // A number, with a pattern that mostly matches it.
    fn number(&mut self, number: u32) {
        self.words.value_of("int", number);
        match self.random.below(8) {
            0 => self.words.pattern("any"),
            1..=3 => {
                if self.random.once_in(4) {
                    self.any_name();
                } else {
                    self.words.pattern_of("name", number);
                }
            }
            4 => self.words.pattern_of("name", number),
            5 => {
                let asked = self.mostly(number);
                self.words.pattern_of("literal int", asked);
            }
            6 => {
                let given = self.mostly(number);
                self.words.given(given);
                self.words.pattern("given");
            }
            _ => self.any_name(),
        }
    }

    fn mostly(&mut self, number: u32) -> u32 {
        if self.random.once_in(8) {
            OTHER
        } else {
            number
        }
    }

    fn any_name(&mut self) {
        let name = self.random.below(NUMBERS);
        self.words.pattern_of("name", name);
    }

    fn any_number(&mut self) {
        let number = self.random.below(NUMBERS);
        self.words.value_of("int", number);
    }

    // Up to two numbers below the bound; how many.
    fn numbers(&mut self, bound: u32) -> u32
        requires { 0 < bound }
    {
        let count = self.random.below(3);
        for _item in 0..count {
            let number = self.random.below(bound);
            self.words.value_of("int", number);
        }
        count
    }

    // A name with a short sequence of few different numbers.
    fn sequence(&mut self) {
        let count = self.numbers(2);
        self.words.value_of("seq", count);
        self.any_name();
    }

    fn text(&mut self) {
        self.words.value("char 97 char 98");
        self.words.pattern("literal text 2 97 98");
    }

    fn literal(&mut self) {
        match self.random.below(5) {
            0 => self.same("char 97", "literal char 97"),
            1 => self.same("quote 3", "literal quote 3"),
            2 => self.same("true", "literal true"),
            3 => self.same("nil", "literal nil"),
            _ => {
                self.text();
                self.words.value("seq 2");
            }
        }
    }

    fn same(&mut self, value: &str, pattern: &str) {
        self.words.value(value);
        self.words.pattern(pattern);
    }

    // The pattern of an empty set, sequence or map; the value has a part in one of six.
    fn empty(&mut self) {
        let kind = self.random.below(3);
        let count = if self.random.once_in(6) { 1 } else { 0 };
        if count == 1 {
            self.words.value(if kind == 2 {
                "int 9 int 9 tuple 2"
            } else {
                "int 9"
            });
        }
        match kind {
            0 => self.emptied("set 0", "set", count),
            1 => self.emptied("seq 0", "seq", count),
            _ => self.emptied("empty-map", "map", count),
        }
    }

    fn emptied(&mut self, pattern: &str, value: &str, count: u32) {
        self.words.pattern(pattern);
        self.words.value_of(value, count);
    }
}
