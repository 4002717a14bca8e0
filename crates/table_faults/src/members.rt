// The members of classes, in text order.

ghost use Rattle.std.specs.Prelude.{◌≡◌, map, flat_map, IfOk, OnOk};
ghost use Rattle.expr_tree.specs.TypeDefView.{type_def_view, type_body_view, field_view};
ghost use Rattle.abstract_syntax.specs.Classes.{variables_among};
ghost use Rattle.vdm_tree.specs.ClassView.{block_view, value_def_view, variable_view, variable_item_view, function_view, operation_view};
ghost use Rattle.class_meaning.specs.Members.{of_type, of_value, of_variable, of_function, of_operation, members_in};
ghost use Rattle.table_faults.specs.Firsts.{body_fault as fault_in_body, field_fault, fields_fault, member_fault, members_fault, no_members, no_names, shape_of, with_member, with_name};
ghost use Rattle.table_faults.specs.Known.{known_names, known_of, Tells};
ghost use Rattle.table_faults.specs.Tables.{spec_in, Holds};

use crate::names::{head_fault, note, refusal, refused_if};
use crate::seen::{Seen, Shape};
use crate::table::Table;
use expr_tree::{Field, TypeBody, TypeDef};
use std::alloc::Global;
use std::collections::HashSet;
use vdm_kinds::{OutOfMemory, SpecFault, SpecKind};
use vdm_tree::{Block, FunctionDef, OpDef, ValueDef, VarDef, VariableItem};

impl<'t> Table<'t> {
    /// A field has a name that no earlier one of its type has.
    fn field_fault(
        &self,
        k: usize,
        earlier: &mut HashSet<u32>,
        field: &Field,
    ) -> Result<Option<SpecFault>, OutOfMemory>
        requires { Holds self.now }
        ensures fault { IfOk result (λ fault. fault ≡ field_fault (spec_in self.now) k (known_names earlier.old) (field_view field.now)) }
        ensures noted { OnOk result (known_names earlier.new ≡ with_name (known_names earlier.old) field.now.name) }
    {
        let is_known = note(earlier, field.name)?;
        let twice = refused_if(is_known, SpecKind::Duplicate, field.name_place);
        Ok(twice.or(self.type_fault(k, &field.declared)))
    }

    fn fields_fault(
        &self,
        alloc: Global,
        k: usize,
        fields: &[Field],
    ) -> Result<Option<SpecFault>, OutOfMemory>
        requires { Holds self.now }
        ensures { IfOk result (λ fault. fault ≡ fields_fault (spec_in self.now) k no_names (map field_view fields.now)) }
    {
        let mut earlier = HashSet::new(alloc);
        for field in fields {
            if let Some(fault) = self.field_fault(k, &mut earlier, field)? {
                return Ok(Some(fault));
            }
        }
        Ok(None)
    }

    fn body_fault(
        &self,
        alloc: Global,
        k: usize,
        body: &TypeBody,
    ) -> Result<Option<SpecFault>, OutOfMemory>
        requires { Holds self.now }
        ensures { IfOk result (λ fault. fault ≡ fault_in_body (spec_in self.now) k (type_body_view body.now)) }
    {
        match body {
            TypeBody::Same(declared) => Ok(self.type_fault(k, declared)),
            TypeBody::Fields(fields) => self.fields_fault(alloc, k, fields),
        }
    }

    fn type_def_fault(
        &self,
        alloc: Global,
        k: usize,
        seen: &mut Seen,
        definition: &TypeDef,
    ) -> Result<Option<SpecFault>, OutOfMemory>
        requires { Holds self.now }
        ensures fault { IfOk result (λ fault. fault ≡ member_fault (spec_in self.now) k (known_of seen.old) (of_type (type_def_view definition.now))) }
        ensures noted { OnOk result (known_of seen.new ≡ with_member (known_of seen.old) definition.now.name (shape_of (of_type (type_def_view definition.now)))) }
    {
        let clashes = seen.note(definition.name, Shape::Plain)?;
        if let Some(fault) = head_fault(true, clashes, definition.place, definition.name_place) {
            return Ok(Some(fault));
        }
        if self.is_own_alternative(definition) {
            return Ok(Some(refusal(SpecKind::Cycle, definition.name_place)));
        }
        self.body_fault(alloc, k, &definition.body)
    }

    fn value_fault(
        &self,
        k: usize,
        seen: &mut Seen,
        value: &ValueDef,
    ) -> Result<Option<SpecFault>, OutOfMemory>
        requires { Holds self.now }
        ensures fault { IfOk result (λ fault. fault ≡ member_fault (spec_in self.now) k (known_of seen.old) (of_value (value_def_view value.now))) }
        ensures noted { OnOk result (known_of seen.new ≡ with_member (known_of seen.old) value.now.name (shape_of (of_value (value_def_view value.now)))) }
    {
        let clashes = seen.note(value.name, Shape::Plain)?;
        if let Some(fault) = head_fault(true, clashes, value.place, value.name_place) {
            return Ok(Some(fault));
        }
        Ok(self.optional_fault(k, &value.declared))
    }

    fn variable_fault(
        &self,
        k: usize,
        seen: &mut Seen,
        variable: &VarDef,
    ) -> Result<Option<SpecFault>, OutOfMemory>
        requires { Holds self.now }
        ensures fault { IfOk result (λ fault. fault ≡ member_fault (spec_in self.now) k (known_of seen.old) (of_variable (variable_view variable.now))) }
        ensures noted { OnOk result (known_of seen.new ≡ with_member (known_of seen.old) variable.now.name (shape_of (of_variable (variable_view variable.now)))) }
    {
        let clashes = seen.note(variable.name, Shape::Plain)?;
        if let Some(fault) = head_fault(true, clashes, variable.place, variable.name_place) {
            return Ok(Some(fault));
        }
        Ok(self.type_fault(k, &variable.declared))
    }

    fn function_fault(
        &self,
        k: usize,
        seen: &mut Seen,
        function: &FunctionDef,
    ) -> Result<Option<SpecFault>, OutOfMemory>
        requires { Holds self.now }
        ensures fault { IfOk result (λ fault. fault ≡ member_fault (spec_in self.now) k (known_of seen.old) (of_function (function_view function.now))) }
        ensures noted { OnOk result (known_of seen.new ≡ with_member (known_of seen.old) function.now.name (shape_of (of_function (function_view function.now)))) }
    {
        let count = function.patterns.len();
        let clashes = seen.note(function.name, Shape::Function(count))?;
        let fits = function.parameters.len() == count;
        if let Some(fault) = head_fault(fits, clashes, function.place, function.name_place) {
            return Ok(Some(fault));
        }
        let parameters = self.types_fault(k, &function.parameters);
        Ok(parameters.or(self.type_fault(k, &function.result_type)))
    }

    fn operation_fault(
        &self,
        k: usize,
        seen: &mut Seen,
        operation: &OpDef,
    ) -> Result<Option<SpecFault>, OutOfMemory>
        requires { Holds self.now }
        ensures fault { IfOk result (λ fault. fault ≡ member_fault (spec_in self.now) k (known_of seen.old) (of_operation (operation_view operation.now))) }
        ensures noted { OnOk result (known_of seen.new ≡ with_member (known_of seen.old) operation.now.name (shape_of (of_operation (operation_view operation.now)))) }
    {
        let count = operation.patterns.len();
        let clashes = seen.note(operation.name, Shape::Operation(count))?;
        let fits = operation.parameters.len() == count;
        if let Some(fault) = head_fault(fits, clashes, operation.place, operation.name_place) {
            return Ok(Some(fault));
        }
        let parameters = self.types_fault(k, &operation.parameters);
        Ok(parameters.or(self.optional_fault(k, &operation.result_type)))
    }

    fn type_defs_fault(
        &self,
        alloc: Global,
        k: usize,
        seen: &mut Seen,
        definitions: &[TypeDef],
    ) -> Result<Option<SpecFault>, OutOfMemory>
        requires { Holds self.now }
        ensures { IfOk result (λ fault. Tells (spec_in self.now) k seen.old seen.new (map of_type (map type_def_view definitions.now)) fault) }
    {
        for definition in definitions {
            if let Some(fault) = self.type_def_fault(alloc, k, seen, definition)? {
                return Ok(Some(fault));
            }
        }
        Ok(None)
    }

    fn values_fault(
        &self,
        k: usize,
        seen: &mut Seen,
        definitions: &[ValueDef],
    ) -> Result<Option<SpecFault>, OutOfMemory>
        requires { Holds self.now }
        ensures { IfOk result (λ fault. Tells (spec_in self.now) k seen.old seen.new (map of_value (map value_def_view definitions.now)) fault) }
    {
        for definition in definitions {
            if let Some(fault) = self.value_fault(k, seen, definition)? {
                return Ok(Some(fault));
            }
        }
        Ok(None)
    }

    fn variables_fault(
        &self,
        k: usize,
        seen: &mut Seen,
        items: &[VariableItem],
    ) -> Result<Option<SpecFault>, OutOfMemory>
        requires { Holds self.now }
        ensures { IfOk result (λ fault. Tells (spec_in self.now) k seen.old seen.new (map of_variable (variables_among (map variable_item_view items.now))) fault) }
    {
        for item in items {
            let VariableItem::Variable(variable) = item else {
                continue;
            };
            if let Some(fault) = self.variable_fault(k, seen, variable)? {
                return Ok(Some(fault));
            }
        }
        Ok(None)
    }

    fn functions_fault(
        &self,
        k: usize,
        seen: &mut Seen,
        definitions: &[FunctionDef],
    ) -> Result<Option<SpecFault>, OutOfMemory>
        requires { Holds self.now }
        ensures { IfOk result (λ fault. Tells (spec_in self.now) k seen.old seen.new (map of_function (map function_view definitions.now)) fault) }
    {
        for definition in definitions {
            if let Some(fault) = self.function_fault(k, seen, definition)? {
                return Ok(Some(fault));
            }
        }
        Ok(None)
    }

    fn operations_fault(
        &self,
        k: usize,
        seen: &mut Seen,
        definitions: &[OpDef],
    ) -> Result<Option<SpecFault>, OutOfMemory>
        requires { Holds self.now }
        ensures { IfOk result (λ fault. Tells (spec_in self.now) k seen.old seen.new (map of_operation (map operation_view definitions.now)) fault) }
    {
        for definition in definitions {
            if let Some(fault) = self.operation_fault(k, seen, definition)? {
                return Ok(Some(fault));
            }
        }
        Ok(None)
    }

    fn block_fault(
        &self,
        alloc: Global,
        k: usize,
        seen: &mut Seen,
        block: &Block,
    ) -> Result<Option<SpecFault>, OutOfMemory>
        requires { Holds self.now }
        ensures { IfOk result (λ fault. Tells (spec_in self.now) k seen.old seen.new (members_in (block_view block.now)) fault) }
    {
        match block {
            Block::Types(definitions, _) => self.type_defs_fault(alloc, k, seen, definitions),
            Block::Values(definitions, _) => self.values_fault(k, seen, definitions),
            Block::Variables(items, _) => self.variables_fault(k, seen, items),
            Block::Functions(definitions, _) => self.functions_fault(k, seen, definitions),
            Block::Operations(definitions, _) => self.operations_fault(k, seen, definitions),
            Block::Thread(_, _) | Block::Sync(_, _) => Ok(None),
        }
    }

    /// The first refusal of the members of the class of a number.
    pub(crate) fn members_fault(
        &self,
        alloc: Global,
        k: usize,
        blocks: &[Block],
    ) -> Result<Option<SpecFault>, OutOfMemory>
        requires { Holds self.now }
        ensures { IfOk result (λ fault. fault ≡ members_fault (spec_in self.now) k no_members (flat_map members_in (map block_view blocks.now))) }
    {
        let mut seen = Seen::new(alloc);
        for block in blocks {
            if let Some(fault) = self.block_fault(alloc, k, &mut seen, block)? {
                return Ok(Some(fault));
            }
        }
        Ok(None)
    }
}
