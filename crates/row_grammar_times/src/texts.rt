// Texts of a length that are each one enumeration: of sums of 199 terms (`sums`), of 198 brackets in each other
// (`nestings`), of literals (`literals`), of names that are applied 60 times (`calls`), or of names (`identifiers`). Sums and
// nestings are as deep as they may be in an enumeration. `patterns` is a pattern of patterns, and `types` a type of types.

use row_words::Line;

/// The text of a kind, of at most so many bytes where it has more than one item.
pub(crate) fn text_of(line: &mut Line<'_>, kind: &str, length: usize) -> Vec<u8> {
    let item = item_of(line, kind);
    let between = between(kind);
    let width = item.len().saturating_add(between.len()).max(1);
    let mut text = Vec::new(line.alloc());
    line.put(&mut text, b'[');
    for number in 0..length / width {
        if number > 0 {
            add(line, &mut text, between, 1);
        }
        add(line, &mut text, &item, 1);
    }
    line.put(&mut text, b']');
    text
}

fn between(kind: &str) -> &'static [u8] {
    match kind {
        "types" => b" | ",
        _ => b", ",
    }
}

fn item_of(line: &mut Line<'_>, kind: &str) -> Vec<u8> {
    let mut item = Vec::new(line.alloc());
    match kind {
        "sums" => {
            line.put(&mut item, b'1');
            add(line, &mut item, b" + 1", 198);
        }
        "nestings" => {
            add(line, &mut item, b"(", 198);
            line.put(&mut item, b'1');
            add(line, &mut item, b")", 198);
        }
        "calls" => {
            line.put(&mut item, b'f');
            add(line, &mut item, b"(1)", 60);
        }
        _ => add(line, &mut item, list_of(kind), 1),
    }
    item
}

// Several items.
fn list_of(kind: &str) -> &'static [u8] {
    match kind {
        "literals" => b"12, \"abc\", 'd', <Red>, true, nil, 0x1f",
        "patterns" => b"mk_(x, -), {1, y} ^ z",
        "types" => b"set of nat * C`T | [bool]",
        _ => b"counter, x'",
    }
}

// Adds the bytes so many times.
fn add(line: &mut Line<'_>, text: &mut Vec<u8>, part: &[u8], times: u32) {
    for _time in 0..times {
        for byte in part {
            line.put(text, *byte);
        }
    }
}
