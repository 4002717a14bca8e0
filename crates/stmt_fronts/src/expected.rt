// What is wanted next.

use grammar_fronts::Wanted;

/// What is wanted next in a statement, a definition, a class or a specification, at some point of it.
#[derive(Clone, Copy, Debug, PartialEq, Eq)]
pub enum Expected {
    /// What is wanted in a type, a pattern or an expression.
    Within(Wanted),
    // Statements.
    Statement,
    /// `dcl`, or the first statement of a block.
    InBlock,
    /// What stands behind a statement of a block.
    BehindStatement,
    /// A further statement of a block, or its `)`.
    StatementOrClose,
    /// `:=` and a value.
    Initial,
    /// `,` and a further local variable.
    MoreVariables,
    /// What an assignment writes to.
    Target,
    /// A step into what a target names.
    TargetSteps,
    /// `;` and a further assignment of `atomic`.
    MoreAssignments,
    /// The value of a `return` or an `exit`.
    Value,
    /// `elseif` or `else`, and what follows.
    Otherwise,
    /// What stands behind a pattern of an alternative of `cases`.
    BehindCase,
    /// `,` and a further alternative of `cases`, or `end`.
    MoreCases,
    /// `others`, or a further alternative of `cases`.
    NextCase,
    /// What stands behind `for`.
    Loop,
    /// The `in set` of a `for all`.
    InSetOfLoop,
    /// The `set` behind the `in` of a `for all`. It never comes: `in` before `set` is one word with it.
    SetOfLoop,
    /// `by` and a step.
    Step,
    /// `,` and a further `p |-> s` of `tixe`.
    MoreHandlers,
    /// `,` and a further statement of `||`.
    MoreParallel,
    // Calls.
    /// A postfix, of which the last has to be an application.
    Call,
    /// A further postfix behind an application.
    Called,
    // Definitions.
    /// A level of access, or the name of a definition, behind `static`.
    LevelOrName,
    /// `static`, or the name of a definition, behind a level of access.
    StaticOrName,
    /// The name of a definition.
    DefinedName,
    /// The name of a function or an operation, once more.
    DefinedNameAgain,
    /// A definition of a type, and `;` behind it.
    TypeDefs,
    MoreTypeDefs,
    /// What a type is: `=` or `::`, and what follows.
    TypeBody,
    /// A field of a record type.
    Fields,
    /// `inv` and what follows.
    Invariant,
    ValueDefs,
    MoreValueDefs,
    VariableItems,
    MoreVariableItems,
    FunctionDefs,
    MoreFunctionDefs,
    OperationDefs,
    MoreOperationDefs,
    /// A type, or `()`.
    TypeOrNone,
    FunctionArrow,
    /// The `==` behind the parameters.
    Defined,
    FunctionBody,
    OperationBody,
    /// What stands behind the `is` of a body that is not there.
    BehindIs,
    /// `pre` and a condition.
    Pre,
    /// `post` and a condition.
    Post,
    /// `measure` and an expression.
    Measure,
    // Threads and synchronisation.
    ThreadBody,
    /// `)`, or what may stand behind the period of a periodic thread.
    PhaseOrClose,
    /// A `;` that may come.
    LastSemicolon,
    SyncClauses,
    MoreSyncClauses,
    /// What stands behind the `(` of a `mutex`.
    MutexNames,
    // Classes.
    Classes,
    ClassName,
    /// The name of the class, once more.
    ClassNameAgain,
    /// `is subclass of` and names.
    Superclasses,
    Blocks,
    // One word alone.
    Becomes,
    Do,
    /// `...`
    Dots,
    DoubleArrow,
    DoubleEqual,
    Implies,
    OpenCurly,
    Responsibility,
    Semicolon,
    Specified,
    Subclass,
    Variables,
    With,
    Yet,
}
