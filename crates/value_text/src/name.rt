// The text of a name.

ghost use Rattle.std.specs.Prelude.{◌≡◌};
ghost use Rattle.report_texts.specs.Names.{name_text};

use vdm_kinds::Name;
use vdm_names::Names;

/// The text of a name; a number past the list has the empty text.
pub fn name_text(names: &Names, name: Name) -> &str
    ensures { result.now ≡ name_text names.now name }
{
    names.text(name).unwrap_or("")
}
