// Places under what they are found by.

ghost use Rattle.std.specs.Prelude.{◌≡◌, ℕ, nat_eq, if◌then◌else◌, Some, None, OnOk};
ghost use Rattle.std.specs.HashMap.{get};
ghost use Rattle.class_meaning.specs.Members.{or_else};
ghost use Rattle.class_index.specs.Calls.{is_same_call};

use crate::member_at::MemberAt;
use std::collections::HashMap;
use vdm_kinds::{Name, OutOfMemory};

/// Notes a place under a name, where the name is new.
pub(crate) fn note_name(
    index: &mut HashMap<u32, MemberAt>,
    name: Name,
    at: MemberAt,
) -> Result<(), OutOfMemory>
    ensures { OnOk result ((n : ℕ) → get nat_eq index.new n ≡ or_else (get nat_eq index.old n) (if nat_eq n name.0 then Some at else None)) }
{
    if !index.contains_key(&name.0) {
        index.insert(name.0, at)?;
    }
    Ok(())
}

/// Notes a place under a name and a number of parameters, where the two are new.
pub(crate) fn note_call(
    index: &mut HashMap<(u32, usize), MemberAt>,
    name: Name,
    count: usize,
    at: MemberAt,
) -> Result<(), OutOfMemory>
    ensures { OnOk result ((call : ℕ × ℕ) → get is_same_call index.new call ≡ or_else (get is_same_call index.old call) (if is_same_call call (name.0, count) then Some at else None)) }
{
    let call = (name.0, count);
    if !index.contains_key(&call) {
        index.insert(call, at)?;
    }
    Ok(())
}
