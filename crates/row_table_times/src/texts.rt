// Texts of many classes, or of one class of many operations. For tables: classes that stand alone (`alone`), under one class each
// (`heirs`), or each under the one before it (`chain`), and the operations of one class (`operations`). For look-ups of `f`: classes
// that have it themselves (`own`), by one class above each (`inherited`), or by ten, which all have it by one (`several`).

use row_words::Line;
use std::fmt::Write;

const ONE_ABOVE: &[u8] = b"class B operations public f : () ==> () f() == skip end B\n";

const TEN_ABOVE: &[u8] = b"class A operations public f : () ==> () f() == skip end A
class B0 is subclass of A end B0
class B1 is subclass of A end B1
class B2 is subclass of A end B2
class B3 is subclass of A end B3
class B4 is subclass of A end B4
class B5 is subclass of A end B5
class B6 is subclass of A end B6
class B7 is subclass of A end B7
class B8 is subclass of A end B8
class B9 is subclass of A end B9
";

const UNDER_TEN: &[u8] = b"class C@ is subclass of B0, B1, B2, B3, B4, B5, B6, B7, B8, B9 end C@\n";

/// The text of a kind with so many classes or operations.
pub(crate) fn text_of(line: &mut Line<'_>, kind: &str, count: usize) -> Vec<u8> {
    let mut text = Vec::new(line.alloc());
    add(line, &mut text, front_of(kind));
    for number in 0..count {
        add_item(line, &mut text, item_of(kind), number);
    }
    add(line, &mut text, back_of(kind));
    text
}

fn front_of(kind: &str) -> &'static [u8] {
    match kind {
        "heirs" => b"class B end B\n",
        "chain" => b"class C0 end C0\n",
        "operations" => b"class C operations\n",
        "inherited" => ONE_ABOVE,
        "several" => TEN_ABOVE,
        _ => b"",
    }
}

// Where `@` stands comes the number of the item, and where `#` does one more.
fn item_of(kind: &str) -> &'static [u8] {
    match kind {
        "heirs" | "inherited" => b"class C@ is subclass of B end C@\n",
        "chain" => b"class C# is subclass of C@ end C#\n",
        "operations" => b"  public f@ : () ==> () f@() == skip;\n",
        "own" => b"class C@ operations public f : () ==> () f() == skip end C@\n",
        "several" => UNDER_TEN,
        _ => b"class C@ end C@\n",
    }
}

fn back_of(kind: &str) -> &'static [u8] {
    match kind {
        "operations" => b"end C\n",
        _ => b"",
    }
}

fn add_item(line: &mut Line<'_>, text: &mut Vec<u8>, item: &[u8], number: usize) {
    for byte in item {
        match byte {
            b'@' => add_number(line, text, number),
            b'#' => add_number(line, text, number.saturating_add(1)),
            _ => line.put(text, *byte),
        }
    }
}

fn add_number(line: &mut Line<'_>, text: &mut Vec<u8>, number: usize) {
    let mut digits = String::new(line.alloc());
    if write!(digits, "{number}").is_err() {
        line.fall_short();
    }
    add(line, text, digits.as_str().as_bytes());
}

fn add(line: &mut Line<'_>, text: &mut Vec<u8>, part: &[u8]) {
    for byte in part {
        line.put(text, *byte);
    }
}
