// Patterns in requests. All of their places are one.

use expr_tree::{Expr, Literal, MapletPattern, Pattern};
use row_desk::Desk;
use row_words::Line;
use std::alloc::Global;
use vdm_kinds::{Name, OutOfMemory, Part, Place, TypeName};

/// The patterns and the pairs of them that words made so far, the last ones last.
#[derive(Drop)]
pub(crate) struct Growing {
    patterns: Vec<Pattern>,
    maplets: Vec<MapletPattern>,
}

impl Growing {
    pub(crate) fn new(alloc: Global) -> Growing {
        Growing {
            patterns: Vec::new(alloc),
            maplets: Vec::new(alloc),
        }
    }

    /// The last pattern, taken from the others.
    pub(crate) fn last(&mut self, line: &mut Line<'_>) -> Pattern {
        line.last(&mut self.patterns, Pattern::AnyValue(here()))
    }

    /// Puts what the next word says behind the others. The parts that it is made of are the last ones there, and go.
    pub(crate) fn grow(&mut self, desk: &Desk, line: &mut Line<'_>) {
        match line.word() {
            "maplet" => self.pair(line),
            word => {
                let pattern = self.pattern_by(word, desk, line);
                line.put(&mut self.patterns, pattern);
            }
        }
    }

    fn pair(&mut self, line: &mut Line<'_>) {
        let value = self.last(line);
        let key = self.last(line);
        match maplet_of(line.alloc(), key, value) {
            Ok(maplet) => line.put(&mut self.maplets, maplet),
            Err(_) => line.fall_short(),
        }
    }

    fn pattern_by(&mut self, word: &str, desk: &Desk, line: &mut Line<'_>) -> Pattern {
        match word {
            "any" => Pattern::AnyValue(here()),
            "name" => Pattern::bound(desk.name(line), here()),
            "literal" => Pattern::literal(literal(desk, line), here()),
            "given" => given(line),
            "empty-map" => Pattern::EmptyMap(here()),
            "map" => self.map(line),
            "record" => self.record(None, desk.name(line), line),
            "record-of" => self.record(Some(desk.name(line)), desk.name(line), line),
            _ => self.list(word, line),
        }
    }

    fn map(&mut self, line: &mut Line<'_>) -> Pattern {
        let count = line.count();
        Pattern::map(line.last_of(&mut self.maplets, count), here())
    }

    fn record(&mut self, class: Option<Name>, name: Name, line: &mut Line<'_>) -> Pattern {
        let type_name = TypeName {
            class,
            name,
            name_place: here(),
        };
        Pattern::record(type_name, self.parts(line), here())
    }

    fn list(&mut self, word: &str, line: &mut Line<'_>) -> Pattern {
        match word {
            "set" => Pattern::set(self.parts(line), here()),
            "seq" => Pattern::sequence(self.parts(line), here()),
            "tuple" => Pattern::tuple(self.parts(line), here()),
            "join" => Pattern::concatenation(self.parts(line), here()),
            _ => {
                line.refuse();
                Pattern::AnyValue(here())
            }
        }
    }

    // So many of the last patterns as the next word says.
    fn parts(&mut self, line: &mut Line<'_>) -> Vec<Pattern> {
        let count = line.count();
        line.last_of(&mut self.patterns, count)
    }
}

fn maplet_of(alloc: Global, key: Pattern, value: Pattern) -> Result<MapletPattern, OutOfMemory> {
    let key = Box::new(alloc, key)?;
    let value = Box::new(alloc, value)?;
    Ok(MapletPattern::new(key, value))
}

// A bracketed expression. Its value is given beside the pattern, so any expression will do.
fn given(line: &mut Line<'_>) -> Pattern {
    match Box::new(line.alloc(), Expr::whole(0, here())) {
        Ok(inner) => Pattern::equal_to(inner, here()),
        Err(_) => {
            line.fall_short();
            Pattern::AnyValue(here())
        }
    }
}

fn literal(desk: &Desk, line: &mut Line<'_>) -> Literal {
    match line.word() {
        "int" => Literal::Whole(line.integer()),
        "char" => Literal::Character(character(line)),
        "text" => Literal::Text(characters(line)),
        "quote" => Literal::Quote(desk.name(line)),
        "true" => Literal::Bool(true),
        "false" => Literal::Bool(false),
        "nil" => Literal::Nil,
        _ => {
            line.refuse();
            Literal::Nil
        }
    }
}

fn character(line: &mut Line<'_>) -> char {
    let number = line.number();
    line.found(char::from_u32(number), ' ')
}

// So many characters as the next word says, by their numbers.
fn characters(line: &mut Line<'_>) -> Vec<char> {
    let mut characters = Vec::new(line.alloc());
    for _character in 0..line.count().min(line.bound()) {
        let it = character(line);
        line.put(&mut characters, it);
    }
    characters
}

/// The one place of all that has none of its own.
pub(crate) fn here() -> Place {
    on_line(1)
}

/// The beginning of a line.
pub(crate) fn on_line(line: u32) -> Place {
    Place {
        part: Part::Expr,
        line,
        column: 1,
    }
}
