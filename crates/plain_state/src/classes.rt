// The classes whose class objects main makes.

ghost use Rattle.std.specs.Prelude.{◌≡◌, ◌↔◌, length, slice_get, IsTrue};
ghost use Rattle.spec_table.specs.Tables.{table_spec};
ghost use Rattle.vdm_legal.specs.ClassObjects.{IsAboveClassObjects, IsClassObject, classes_of};

use spec_table::ClassTable;
use vdm_kinds::Name;

/// How many classes there are: `IO` is one, and then those of the text.
pub(crate) fn count_of(table: &ClassTable) -> usize
    ensures { result ≡ length (classes_of (table_spec table.now)) }
{
    table.classes().len()
}

/// Whether the object is the class object of the class.
pub(crate) fn is_class_object(table: &ClassTable, object: u32, class: Name) -> bool
    ensures { IsTrue result ↔ IsClassObject (table_spec table.now) object class }
{
    class_at(table, object as usize) == Some(class)
}

/// Whether the number is above those of all class objects.
pub(crate) fn is_above_class_objects(table: &ClassTable, object: u32) -> bool
    ensures { IsTrue result ↔ IsAboveClassObjects (table_spec table.now) object }
{
    count_of(table) <= object as usize
}

/// The class whose class object has this number, or `None` where there are not so many.
fn class_at(table: &ClassTable, number: usize) -> Option<Name>
    ensures { result ≡ slice_get (classes_of (table_spec table.now)) number }
{
    table.classes().get(number).copied()
}
