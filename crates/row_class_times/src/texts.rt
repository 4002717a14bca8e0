// Texts of a length: many small classes (`classes`), a class of many variables (`variables`), an operation of many statements
// (`statements`), or one of blocks of 150 blocks in each other (`blocks`). As a statement alone there are the last two.

use row_words::Line;

const CLASS: &[u8] = b"class C is subclass of B
types
  public Pair :: first : nat second : seq of char
  inv p == p.first > 0;
instance variables
  count : nat := 0;
  pairs : set of Pair := {};
operations
  public add : nat * seq of char ==> ()
  add(n, t) == (
    count := count + n;
    pairs := pairs union {mk_Pair(n, t)};
  )
  pre n > 0;
  public get : () ==> nat
  get() == if count > 0 then return count;
sync
  mutex(add);
end C
";

/// The text of a kind, of at most so many bytes where it has an item.
pub(crate) fn text_of(line: &mut Line<'_>, reading: &str, kind: &str, length: usize) -> Vec<u8> {
    let front = front_of(reading, kind);
    let back = back_of(reading, kind);
    let item = item_of(line, kind);
    let room = length
        .saturating_sub(front.len())
        .saturating_sub(back.len());
    let mut text = Vec::new(line.alloc());
    add(line, &mut text, front, 1);
    add(line, &mut text, &item, room / item.len().max(1));
    add(line, &mut text, back, 1);
    text
}

fn front_of(reading: &str, kind: &str) -> &'static [u8] {
    match kind {
        "classes" => b"",
        "variables" => b"class C instance variables\n",
        _ => match reading {
            "statement" => b"(",
            _ => b"class C operations f : () ==> () f() == (\n",
        },
    }
}

fn back_of(reading: &str, kind: &str) -> &'static [u8] {
    match kind {
        "classes" => b"",
        "variables" => b"end C",
        _ => match reading {
            "statement" => b"skip)",
            _ => b"skip) end C",
        },
    }
}

fn item_of(line: &mut Line<'_>, kind: &str) -> Vec<u8> {
    let mut item = Vec::new(line.alloc());
    match kind {
        "classes" => add(line, &mut item, CLASS, 1),
        "variables" => add(
            line,
            &mut item,
            b"  counter : nat := 0; -- how many came\n",
            1,
        ),
        "blocks" => {
            add(line, &mut item, b"(", 150);
            add(line, &mut item, b"skip", 1);
            add(line, &mut item, b")", 150);
            add(line, &mut item, b";\n", 1);
        }
        _ => add(line, &mut item, b"  count := step + 2;\n", 1),
    }
    item
}

// Adds the bytes so many times.
fn add(line: &mut Line<'_>, text: &mut Vec<u8>, part: &[u8], times: usize) {
    for _time in 0..times {
        for byte in part {
            line.put(text, *byte);
        }
    }
}
