// The laws of words and texts, and texts worked out. Each is the contract of a function that does nothing.

ghost use Rattle.std.specs.Prelude.{◌≡◌, ℕ, ◌⊎◌, List, [], ◌∷◌, ◌++◌, true, false, ◌^◌, ◌-◌, codes, negsuc};
ghost use Rattle.vdm_kinds.specs.declared.run_fault.RunFault.TheVariants.{Overflow, UncaughtExit};
ghost use Rattle.vdm_kinds.specs.declared.spec_kind.SpecKind.TheVariants.{SyntaxFault};
ghost use Rattle.vdm_values.specs.declared.slot.Slot.TheVariants.{Unset, Held};
ghost use Rattle.abstract_syntax.specs.Values.{nil, boolean, number, character, token, tuple, record_of};
ghost use Rattle.abstract_syntax.specs.Values.{sequence, set_of, map_of, object, value_trees, pair_trees};
ghost use Rattle.run_journal.specs.declared.thread.Thread.TheVariants as thread;
ghost use Rattle.run_journal.specs.declared.thread.Thread.TheVariants.{Main, Of, Clock};
ghost use Rattle.run_journal.specs.declared.deed.Deed.TheVariants.{Class, New, Req, Act, ActFault, Fin, Read, Write};
ghost use Rattle.run_journal.specs.declared.deed.Deed.TheVariants.{Start, Print, Host, Time, End, Fail, Tick, Release};
ghost use Rattle.run_journal.specs.declared.host_answer.HostAnswer.TheVariants as answer;
ghost use Rattle.run_journal.specs.Made.{entry};
ghost use Rattle.vdm_kinds.specs.NameList.{io};
ghost use Rattle.report_texts.specs.Quoted.{escaped};
ghost use Rattle.report_texts.specs.Values.{value_text};
ghost use Rattle.report_texts.specs.Log.{log_line};
ghost use Rattle.report_texts.specs.Output.{output};
ghost use Rattle.report_texts.specs.Worked.{up_to, names, class, named, operation, variable, whole};
ghost use Rattle.report_texts.specs.Worked.{red, characters, pair, in_expression, in_specification, waits};
ghost use Rattle.report_texts.specs.Words.{Command, check, run, IsCommand, IsNoCommand};
ghost use Rattle.report_texts.specs.Lines.{thread_text, refused_line, failed_line, result_line, checked_line};
ghost use Rattle.report_texts.specs.Lines.{made_line, deadlock_line, ticks_over_line, journal_full_line};

/// The words of a command line are at most one command.
pub fn one_command()
    ensures { (words : List (List ℕ)) (a b : Command) → IsCommand words a → IsCommand words b → a ≡ b }
{}

/// The words of a command line are a command, or none.
pub fn command_or_none()
    ensures { (words : List (List ℕ)) → IsNoCommand words ⊎ ((command : Command) × IsCommand words command) }
{}

/// Words that are a command.
pub fn worked_commands()
    ensures checked { IsCommand (codes "check" ∷ []) check }
    ensures run_ { IsCommand (codes "run" ∷ codes "1 + 1" ∷ []) (run (codes "1 + 1") (up_to 1000000) false) }
    ensures logged { IsCommand (codes "run" ∷ codes "1" ∷ codes "--log" ∷ []) (run (codes "1") (up_to 1000000) true) }
    ensures log_as_text { IsCommand (codes "run" ∷ codes "--log" ∷ []) (run (codes "--log") (up_to 1000000) false) }
    ensures steps_as_text { IsCommand (codes "run" ∷ codes "--steps" ∷ []) (run (codes "--steps") (up_to 1000000) false) }
    ensures apart { IsCommand (codes "run" ∷ codes "1" ∷ codes "--steps" ∷ codes "9" ∷ []) (run (codes "1") (up_to 9) false) }
    ensures joined { IsCommand (codes "run" ∷ codes "1" ∷ codes "--steps=9" ∷ []) (run (codes "1") (up_to 9) false) }
    ensures zeros { IsCommand (codes "run" ∷ codes "1" ∷ codes "--steps=0000000009" ∷ []) (run (codes "1") (up_to 9) false) }
    ensures most { IsCommand (codes "run" ∷ codes "1" ∷ codes "--steps" ∷ codes "100000000" ∷ [])
        (run (codes "1") (up_to 100000000) false) }
    ensures steps_first { IsCommand (codes "run" ∷ codes "1" ∷ codes "--steps" ∷ codes "9" ∷ codes "--log" ∷ [])
        (run (codes "1") (up_to 9) true) }
    ensures log_first { IsCommand (codes "run" ∷ codes "1" ∷ codes "--log" ∷ codes "--steps=9" ∷ [])
        (run (codes "1") (up_to 9) true) }
{}

/// Words that are none.
pub fn worked_usage()
    ensures none { IsNoCommand [] }
    ensures no_text { IsNoCommand (codes "run" ∷ []) }
    ensures check_of_a_text { IsNoCommand (codes "check" ∷ codes "1" ∷ []) }
    ensures check_with_log { IsNoCommand (codes "check" ∷ codes "--log" ∷ []) }
    ensures check_with_steps { IsNoCommand (codes "check" ∷ codes "--steps" ∷ codes "9" ∷ []) }
    ensures other_letters { IsNoCommand (codes "Check" ∷ []) }
    ensures twice_logged { IsNoCommand (codes "run" ∷ codes "1" ∷ codes "--log" ∷ codes "--log" ∷ []) }
    ensures twice_steps { IsNoCommand (codes "run" ∷ codes "1" ∷ codes "--steps" ∷ codes "9" ∷ codes "--steps=9" ∷ []) }
    ensures no_value { IsNoCommand (codes "run" ∷ codes "1" ∷ codes "--steps" ∷ []) }
    ensures empty_value { IsNoCommand (codes "run" ∷ codes "1" ∷ codes "--steps=" ∷ []) }
    ensures log_as_value { IsNoCommand (codes "run" ∷ codes "1" ∷ codes "--steps" ∷ codes "--log" ∷ []) }
    ensures zero { IsNoCommand (codes "run" ∷ codes "1" ∷ codes "--steps" ∷ codes "0" ∷ []) }
    ensures past_most { IsNoCommand (codes "run" ∷ codes "1" ∷ codes "--steps" ∷ codes "100000001" ∷ []) }
    ensures eleven_digits { IsNoCommand (codes "run" ∷ codes "1" ∷ codes "--steps" ∷ codes "00000000009" ∷ []) }
    ensures sign { IsNoCommand (codes "run" ∷ codes "1" ∷ codes "--steps" ∷ codes "+9" ∷ []) }
    ensures letter { IsNoCommand (codes "run" ∷ codes "1" ∷ codes "--steps" ∷ codes "9a" ∷ []) }
    ensures cut_short { IsNoCommand (codes "run" ∷ codes "1" ∷ codes "--step" ∷ codes "9" ∷ []) }
    ensures two_dashes { IsNoCommand (codes "run" ∷ codes "1" ∷ codes "--" ∷ []) }
{}

/// Values as they are written.
pub fn worked_values()
    ensures none { value_text names nil ≡ codes "nil" }
    ensures truth { value_text names (boolean true) ≡ codes "true" }
    ensures below { value_text names (number (negsuc 4)) ≡ codes "-5" }
    ensures character { value_text names (character 97) ≡ codes "'a'" }
    ensures quote { value_text names red ≡ codes "<Red>" }
    ensures token { value_text names (token (whole 1)) ≡ codes "mk_token(1)" }
    ensures tuple { value_text names (tuple (value_trees (whole 1 ∷ whole 2 ∷ []))) ≡ codes "mk_(1, 2)" }
    ensures record_ { value_text names (record_of class (named 7) (value_trees (whole 1 ∷ whole 2 ∷ []))) ≡ codes "mk_C`T(1, 2)" }
    ensures sequence { value_text names (sequence (value_trees (whole 1 ∷ whole 2 ∷ []))) ≡ codes "[1, 2]" }
    ensures set { value_text names (set_of (value_trees (whole 1 ∷ whole 2 ∷ []))) ≡ codes "{1, 2}" }
    ensures map { value_text names (map_of (pair_trees ((whole 1, whole 2) ∷ (whole 3, whole 4) ∷ [])))
        ≡ codes "{1 |-> 2, 3 |-> 4}" }
    ensures empty_map { value_text names (map_of (pair_trees [])) ≡ codes "{|->}" }
    ensures empty_sequence { value_text names (sequence (value_trees [])) ≡ codes "[]" }
    ensures empty_set { value_text names (set_of (value_trees [])) ≡ codes "{}" }
    ensures object { value_text names (object 3 class) ≡ codes "C#3" }
    ensures string { value_text names (sequence (value_trees (characters (codes "abc")))) ≡ codes "\"abc\"" }
    ensures mixed { value_text names (sequence (value_trees (character 97 ∷ whole 1 ∷ []))) ≡ codes "['a', 1]" }
{}

/// Characters as they are written between quote signs.
pub fn worked_strings()
    ensures backslash { escaped 34 92 ≡ codes "\\\\" }
    ensures sign { escaped 34 34 ≡ codes "\\\"" }
    ensures other_sign { escaped 34 39 ≡ codes "'" }
    ensures apostrophe { escaped 39 39 ≡ codes "\\'" }
    ensures line_feed { escaped 34 10 ≡ codes "\\n" }
    ensures carriage_return { escaped 34 13 ≡ codes "\\r" }
    ensures tab { escaped 34 9 ≡ codes "\\t" }
    ensures control { escaped 34 31 ≡ codes "\\x1f" }
    ensures delete { escaped 34 127 ≡ codes "\\x7f" }
    ensures wide { escaped 34 0x20ac ≡ 0xe2 ∷ 0x82 ∷ 0xac ∷ [] }
{}

/// Last lines as they are written.
pub fn worked_lines()
    ensures failed { failed_line names Overflow Unset Main (in_expression 1 41)
        ≡ codes "fault: 101 Overflow in main at expr 1:41" ++ 10 ∷ [] }
    ensures exit { failed_line names UncaughtExit (Held red) Main (in_specification 6 36)
        ≡ codes "fault: 113 UncaughtExit <Red> in main at spec 6:36" ++ 10 ∷ [] }
    ensures refused { refused_line (record { kind = SyntaxFault; place = in_specification 1 1 })
        ≡ codes "refused: 2 SyntaxFault at spec 1:1" ++ 10 ∷ [] }
    ensures two { result_line names (Held (whole 2)) ≡ (codes "result: 2" ++ 10 ∷ []) }
    ensures least { result_line names (Held (number (negsuc (2 ^ 127 - 1))))
        ≡ codes "result: -170141183460469231731687303715884105728" ++ 10 ∷ [] }
    ensures no_value { result_line names Unset ≡ codes "result: ()" ++ 10 ∷ [] }
    ensures checked { checked_line 3 ≡ codes "checked: classes 3" ++ 10 ∷ [] }
    ensures made { made_line 3 20 5 ≡ codes "made: classes 3, entries 20, result 5" ++ 10 ∷ [] }
    ensures deadlock { deadlock_line names (waits Main 2 ∷ waits (Of 3) 4 ∷ [])
        ≡ codes "deadlock: main 2 C`op/1; t3 4 C`op/1" ++ 10 ∷ [] }
    ensures ticks { ticks_over_line 35 ≡ codes "ticks over: 35" ++ 10 ∷ [] }
    ensures full { journal_full_line 20 ≡ codes "journal full: 20" ++ 10 ∷ [] }
    ensures release { thread_text (thread.Release 3 0) ≡ codes "r3.0" }
{}

/// Lines of the log as they are written.
pub fn worked_log()
    ensures class { log_line names 1 (entry Main 0 (Class io [])) ≡ codes "1 main 0 class IO []" ++ 10 ∷ [] }
    ensures two_slots { log_line names 3 (entry Main 2 (New class (Held (whole 0) ∷ Unset ∷ [])))
        ≡ codes "3 main 2 new C [0, ?]" ++ 10 ∷ [] }
    ensures request { log_line names 4 (entry Main 2 (Req operation)) ≡ codes "4 main 2 req C`op/1" ++ 10 ∷ [] }
    ensures activation { log_line names 5 (entry Main 2 (Act operation)) ≡ codes "5 main 2 act C`op/1" ++ 10 ∷ [] }
    ensures fault { log_line names 5 (entry Main 2 (ActFault operation 110)) ≡ codes "5 main 2 act-fault C`op/1 110" ++ 10 ∷ [] }
    ensures finish { log_line names 6 (entry Main 2 (Fin operation)) ≡ codes "6 main 2 fin C`op/1" ++ 10 ∷ [] }
    ensures read { log_line names 7 (entry Main 2 (Read (variable 5) (Held (whole 0))))
        ≡ codes "7 main 2 read C`x = 0" ++ 10 ∷ [] }
    ensures write { log_line names 8 (entry Main 2 (Write (pair 5 1 ∷ pair 6 2 ∷ []) false))
        ≡ codes "8 main 2 write C`x = 1, C`y = 2" ++ 10 ∷ [] }
    ensures refused { log_line names 9 (entry Main 2 (Write (pair 5 3 ∷ []) true))
        ≡ codes "9 main 2 write C`x = 3 refused 105" ++ 10 ∷ [] }
    ensures start { log_line names 9 (entry (Of 3) 4 (Start false)) ≡ codes "9 t3 4 start" ++ 10 ∷ [] }
    ensures refused_start { log_line names 9 (entry (Of 3) 4 (Start true)) ≡ codes "9 t3 4 start refused 120" ++ 10 ∷ [] }
    ensures print { log_line names 9 (entry Main 0 (Print (characters (codes "in" ++ 10 ∷ []))))
        ≡ codes "9 main 0 print \"in\\n\"" ++ 10 ∷ [] }
    ensures print_nothing { log_line names 9 (entry Main 0 (Print [])) ≡ codes "9 main 0 print \"\"" ++ 10 ∷ [] }
    ensures host { log_line names 9 (entry Main 2 (Host operation (whole 65 ∷ []) (answer.Given (character 65))))
        ≡ codes "9 main 2 host C`op/1 (65) = 'A'" ++ 10 ∷ [] }
    ensures refused_host { log_line names 9 (entry Main 2 (Host operation (whole 65 ∷ []) answer.Refused))
        ≡ codes "9 main 2 host C`op/1 (65) refused" ++ 10 ∷ [] }
    ensures time { log_line names 9 (entry Main 0 (Time 10)) ≡ codes "9 main 0 time 10" ++ 10 ∷ [] }
    ensures end { log_line names 10 (entry Main 0 (End Unset)) ≡ codes "10 main 0 end" ++ 10 ∷ [] }
    ensures end_with { log_line names 11 (entry Main 0 (End (Held (whole 3)))) ≡ codes "11 main 0 end 3" ++ 10 ∷ [] }
    ensures fail { log_line names 12 (entry Main 0 (Fail Overflow Unset (in_expression 1 41)))
        ≡ codes "12 main 0 fail 101 expr 1:41" ++ 10 ∷ [] }
    ensures exit { log_line names 12 (entry Main 0 (Fail UncaughtExit (Held red) (in_specification 6 36)))
        ≡ codes "12 main 0 fail 113 <Red> spec 6:36" ++ 10 ∷ [] }
    ensures tick { log_line names 13 (entry Clock 0 Tick) ≡ codes "13 clock 0 tick" ++ 10 ∷ [] }
    ensures release { log_line names 14 (entry Clock 3 (Release 0)) ≡ codes "14 clock 3 release 0" ++ 10 ∷ [] }
{}

/// Reports as they are written.
pub fn worked_reports()
    ensures printed { output names (entry Main 0 (Print (characters (codes "in"))) ∷ []) false (codes "last")
        ≡ codes "in" ++ 10 ∷ codes "last" }
    ensures whole_line { output names (entry Main 0 (Print (characters (codes "in" ++ 10 ∷ []))) ∷ []) false (codes "last")
        ≡ codes "in" ++ 10 ∷ codes "last" }
    ensures nothing { output names (entry Main 0 (Print []) ∷ []) false (codes "last") ≡ codes "last" }
    ensures logged { output names (entry Main 0 (Print (characters (codes "in"))) ∷ []) true (codes "last")
        ≡ codes "in" ++ 10 ∷ codes "1 main 0 print \"in\"" ++ 10 ∷ codes "last" }
{}
