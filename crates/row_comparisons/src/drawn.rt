// Values that are drawn by a fixed rule, from a number to begin with.

use crate::kinds::Kind;
use row_desk::made_value;
use row_words::Line;
use vdm_sets::{map_from, nodes, set_from};
use vdm_values::{Node, PairList, Value, ValueList};

// Of the values that may be part of another, the first so many are plain, and stay; in the place of one of the others comes
// each value that is drawn and has few nodes.
const PLAIN: u64 = 6;

const PARTS: u64 = 20;

const FEW_NODES: u64 = 12;

/// What draws numbers and values. Values are made of few plain ones, and of some that were drawn before: so two of them
/// often have parts in common, and a part may have parts of its own.
#[derive(Drop)]
pub(crate) struct Drawer {
    state: u64,
    parts: Vec<Value>,
}

impl Drawer {
    /// What draws by this number to begin with.
    pub(crate) fn new(line: &mut Line<'_>, seed: u64) -> Drawer {
        let mut parts = Vec::new(line.alloc());
        for index in 0..PARTS {
            line.put(&mut parts, plain(index));
        }
        Drawer { state: seed, parts }
    }

    /// A number below the bound: from the upper half of a linear congruence of 64 bits.
    pub(crate) fn below(&mut self, bound: u64) -> u64 {
        self.state = self
            .state
            .wrapping_mul(6_364_136_223_846_793_005)
            .wrapping_add(1_442_695_040_888_963_407);
        (self.state >> 32).checked_rem(bound).unwrap_or(0)
    }

    /// A value of this kind, or, one time in eight, of any.
    pub(crate) fn operand(&mut self, line: &mut Line<'_>, kind: Kind) -> Value {
        let wanted = if self.below(8) == 0 { Kind::Any } else { kind };
        let value = match wanted {
            Kind::Any => self.any(line),
            _ => self.of_kind(line, wanted),
        };
        if nodes(&value) <= FEW_NODES {
            self.remember(line, &value);
        }
        value
    }

    fn any(&mut self, line: &mut Line<'_>) -> Value {
        match self.below(6) {
            0 => self.of_kind(line, Kind::Number),
            1 => self.of_kind(line, Kind::Set),
            2 => self.of_kind(line, Kind::Sequence),
            3 => self.of_kind(line, Kind::Map),
            4 => Value::new(Node::Tuple(self.items(line, 3))),
            _ => self.item(line),
        }
    }

    fn of_kind(&mut self, line: &mut Line<'_>, kind: Kind) -> Value {
        match kind {
            Kind::Any => self.item(line),
            Kind::Number => Value::new(Node::Int(self.number())),
            Kind::Truth => Value::new(Node::Bool(self.below(2) == 0)),
            Kind::Set => self.set(line),
            Kind::Sequence => Value::new(Node::Seq(self.items(line, 7))),
            Kind::Map => self.map(line),
            Kind::SetOfSets => self.set_of(line, Kind::Set),
            Kind::SetOfMaps => self.set_of(line, Kind::Map),
            Kind::SequenceOfSequences => Value::new(Node::Seq(self.several(line, Kind::Sequence))),
        }
    }

    // A small number most of the time, else one about an end of the range or far from the small ones.
    fn number(&mut self) -> i128 {
        let small = i128::from(self.below(24)).wrapping_sub(8);
        match self.below(16) {
            0 => i128::MAX.wrapping_sub(small.wrapping_abs()),
            1 => i128::MIN.wrapping_add(small.wrapping_abs()),
            2 => small.wrapping_mul(100_000),
            _ => small,
        }
    }

    fn set(&mut self, line: &mut Line<'_>) -> Value {
        let items = ValueList::from_vec(self.items(line, 7));
        let made = set_from(line.alloc(), items);
        made_value(line, made)
    }

    // Each member of a set with a value.
    fn map(&mut self, line: &mut Line<'_>) -> Value {
        let set = self.set(line);
        let mut pairs = Vec::new(line.alloc());
        for key in members(line, set) {
            let value = self.item(line);
            line.put(&mut pairs, (key, value));
        }
        let made = map_from(line.alloc(), PairList::from_vec(pairs));
        made_value(line, made)
    }

    fn set_of(&mut self, line: &mut Line<'_>, kind: Kind) -> Value {
        let items = ValueList::from_vec(self.several(line, kind));
        let made = set_from(line.alloc(), items);
        made_value(line, made)
    }

    // Up to three values of the kind.
    fn several(&mut self, line: &mut Line<'_>, kind: Kind) -> Vec<Value> {
        let mut values = Vec::new(line.alloc());
        for _value in 0..self.below(4) {
            let value = match kind {
                Kind::Map => self.map(line),
                Kind::Sequence => Value::new(Node::Seq(self.items(line, 4))),
                _ => self.set(line),
            };
            line.put(&mut values, value);
        }
        values
    }

    // Fewer items than the bound.
    fn items(&mut self, line: &mut Line<'_>, bound: u64) -> Vec<Value> {
        let mut items = Vec::new(line.alloc());
        for _item in 0..self.below(bound) {
            let item = self.item(line);
            line.put(&mut items, item);
        }
        items
    }

    // A plain value three times of four, else any part.
    fn item(&mut self, line: &mut Line<'_>) -> Value {
        let bound = if self.below(4) == 0 { PARTS } else { PLAIN };
        let index = self.below(bound) as usize;
        match self.parts.as_slice().get(index) {
            Some(part) => copied(line, part),
            None => plain(0),
        }
    }

    fn remember(&mut self, line: &mut Line<'_>, value: &Value) {
        let index = PLAIN.wrapping_add(self.below(PARTS - PLAIN)) as usize;
        let copy = copied(line, value);
        if let Some(place) = self.parts.as_mut_slice().get_mut(index) {
            *place = copy;
        }
    }
}

// 1 to 4, true, and a character.
fn plain(index: u64) -> Value {
    match index % PLAIN {
        0 => Value::new(Node::Bool(true)),
        1 => Value::new(Node::Char('a')),
        other => Value::new(Node::Int(i128::from(other.wrapping_sub(1)))),
    }
}

fn copied(line: &mut Line<'_>, value: &Value) -> Value {
    match value.copy(line.alloc()) {
        Ok(copy) => copy,
        Err(_) => {
            line.fall_short();
            Value::new(Node::Nil)
        }
    }
}

// The members of a set; of what is no set there are none.
fn members(line: &mut Line<'_>, set: Value) -> Vec<Value> {
    match set.into_node(line.alloc()) {
        Ok(Node::Set(members)) => members,
        Ok(_) => Vec::new(line.alloc()),
        Err(_) => {
            line.fall_short();
            Vec::new(line.alloc())
        }
    }
}
