// What the names of operations, functions, variables and class values mean in a class.

ghost use Rattle.std.specs.Prelude.{◌≡◌, ℕ, None, Some};
ghost use Rattle.class_meaning.specs.Classes.{class_number};
ghost use Rattle.class_meaning.specs.Found.{found, operation_found, variable_found, found_operation, found_function, found_value, found_variable};
ghost use Rattle.class_meaning.specs.declared.ask.Ask.TheVariants.{ByName, Called};
ghost use Rattle.class_meaning.specs.declared.found.OpFound.TheVariants.{None as no_op};
ghost use Rattle.class_meaning.specs.declared.found.VarFound.TheVariants.{None as no_var};
ghost use Rattle.spec_table.specs.Tables.{table_spec};

use crate::table::ClassTable;
use class_meaning::{Ask, Found, MemberKind, OpFound, VarFound};
use vdm_kinds::{Name, OpRef, VarRef};

impl ClassTable {
    /// The operation that a name means in a class, called with so many arguments. None where it means none, and where there is no such
    /// class.
    pub fn find_op(&self, class: Name, name: Name, arity: u32) -> OpFound
        ensures some { (k : ℕ) → class_number (table_spec self.now) class ≡ Some k → result ≡ found_operation (table_spec self.now) k name arity }
        ensures none { class_number (table_spec self.now) class ≡ None → result ≡ no_op }
    {
        match self.list.number(class) {
            Some(k) => self.op_found(k, name, arity, MemberKind::Operation),
            None => OpFound::None,
        }
    }

    /// The function that a name means in a class, applied to so many arguments. None where it means none, and where there is no such
    /// class.
    pub fn find_fn(&self, class: Name, name: Name, arity: u32) -> OpFound
        ensures some { (k : ℕ) → class_number (table_spec self.now) class ≡ Some k → result ≡ found_function (table_spec self.now) k name arity }
        ensures none { class_number (table_spec self.now) class ≡ None → result ≡ no_op }
    {
        match self.list.number(class) {
            Some(k) => self.op_found(k, name, arity, MemberKind::Function),
            None => OpFound::None,
        }
    }

    /// The class value that a name means in a class. None where it means none, and where there is no such class.
    pub fn find_value(&self, class: Name, name: Name) -> VarFound
        ensures some { (k : ℕ) → class_number (table_spec self.now) class ≡ Some k → result ≡ found_value (table_spec self.now) k name }
        ensures none { class_number (table_spec self.now) class ≡ None → result ≡ no_var }
    {
        match self.list.number(class) {
            Some(k) => self.var_found(k, name, MemberKind::Value),
            None => VarFound::None,
        }
    }

    /// The variable that a name means in a class. None where it means none, and where there is no such class.
    pub fn find_var(&self, class: Name, name: Name) -> VarFound
        ensures some { (k : ℕ) → class_number (table_spec self.now) class ≡ Some k → result ≡ found_variable (table_spec self.now) k name }
        ensures none { class_number (table_spec self.now) class ≡ None → result ≡ no_var }
    {
        match self.list.number(class) {
            Some(k) => self.var_found(k, name, MemberKind::Variable),
            None => VarFound::None,
        }
    }

    fn op_found(&self, k: usize, name: Name, arity: u32, kind: MemberKind) -> OpFound
        ensures { result ≡ operation_found (table_spec self.now) name arity kind (found (table_spec self.now) (Called name arity) k) }
    {
        let ask = Ask::Called(name, arity as usize);
        match self.found(k, ask) {
            Found::Nothing => OpFound::None,
            Found::Several => OpFound::Several,
            Found::One(owner) => {
                if self.has_own(owner, ask, kind) {
                    let class = self.name_of_class(owner);
                    OpFound::One(OpRef { class, name, arity })
                } else {
                    OpFound::None
                }
            }
        }
    }

    fn var_found(&self, k: usize, name: Name, kind: MemberKind) -> VarFound
        ensures { result ≡ variable_found (table_spec self.now) name kind (found (table_spec self.now) (ByName name) k) }
    {
        let ask = Ask::ByName(name);
        match self.found(k, ask) {
            Found::Nothing => VarFound::None,
            Found::Several => VarFound::Several,
            Found::One(owner) => {
                if self.has_own(owner, ask, kind) {
                    let class = self.name_of_class(owner);
                    VarFound::One(VarRef { class, name })
                } else {
                    VarFound::None
                }
            }
        }
    }
}
