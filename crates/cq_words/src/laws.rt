//! What some lines of words ask for. Each row is computed from the definition.

ghost use Rattle.std.specs.Prelude.{◌≡◌, Some, None, [], codes};
ghost use Rattle.cq_io.specs.declared.format.Format.TheVariants.{Csv, Cql};
ghost use Rattle.cq_words.specs.Ask.{example, explain, run};
ghost use Rattle.cq_words.specs.Reads.{reads};
ghost use Rattle.cq_words.specs.Spaced.{words_in};

/// Files with their options. Options stand before or after the file, and a word of any other kind is a file.
pub fn runs_by_example()
    ensures plain { reads (words_in (codes "run p.cql")) ≡ Some (run (codes "p.cql") 16 None) }
    ensures after { reads (words_in (codes "run p.cql --depth=64 --only cql"))
        ≡ Some (run (codes "p.cql") 64 (Some Cql)) }
    ensures before { reads (words_in (codes "run --depth 5 --only=csv p.cql"))
        ≡ Some (run (codes "p.cql") 5 (Some Csv)) }
    ensures dash { reads (words_in (codes "run -")) ≡ Some (run (codes "-") 16 None) }
    ensures empty { reads (words_in (codes "run ")) ≡ Some (run [] 16 None) }
    ensures form { reads (words_in (codes "run run")) ≡ Some (run (codes "run") 16 None) }
    ensures help { reads (words_in (codes "run help")) ≡ Some (run (codes "help") 16 None) }
    ensures behind_the_end { reads (words_in (codes "run -- -x")) ≡ Some (run (codes "-x") 16 None) }
    ensures option_behind_the_end { reads (words_in (codes "run -- --depth")) ≡ Some (run (codes "--depth") 16 None) }
    ensures end_behind_the_end { reads (words_in (codes "run -- --")) ≡ Some (run (codes "--") 16 None) }
    ensures end_last { reads (words_in (codes "run p.cql --")) ≡ Some (run (codes "p.cql") 16 None) }
{}

/// Depths.
pub fn depths_by_example()
    ensures zero { reads (words_in (codes "run p.cql --depth 0")) ≡ Some (run (codes "p.cql") 0 None) }
    ensures plus { reads (words_in (codes "run p.cql --depth +5")) ≡ Some (run (codes "p.cql") 5 None) }
    ensures zeros { reads (words_in (codes "run p.cql --depth 007")) ≡ Some (run (codes "p.cql") 7 None) }
    ensures most { reads (words_in (codes "run p.cql --depth 64")) ≡ Some (run (codes "p.cql") 64 None) }
    ensures more { reads (words_in (codes "run p.cql --depth 65")) ≡ None }
    ensures minus_zero { reads (words_in (codes "run p.cql --depth -0")) ≡ None }
    ensures joined_minus_zero { reads (words_in (codes "run p.cql --depth=-0")) ≡ None }
    ensures joined_minus { reads (words_in (codes "run p.cql --depth=-5")) ≡ None }
    ensures joined_empty { reads (words_in (codes "run p.cql --depth=")) ≡ None }
    ensures empty { reads (words_in (codes "run p.cql --depth ")) ≡ None }
    ensures missing { reads (words_in (codes "run p.cql --depth")) ≡ None }
    ensures letter { reads (words_in (codes "run p.cql --depth x")) ≡ None }
    ensures twice { reads (words_in (codes "run p.cql --depth 5 --depth 5")) ≡ None }
    ensures short { reads (words_in (codes "run p.cql --dep 5")) ≡ None }
    ensures behind_the_end { reads (words_in (codes "run p.cql --depth -- 5")) ≡ None }
{}

/// Words that ask for nothing.
pub fn refusals_by_example()
    ensures none { reads [] ≡ None }
    ensures bare { reads (words_in (codes "run")) ≡ None }
    ensures two_files { reads (words_in (codes "run p.cql q.cql")) ≡ None }
    ensures only_twice { reads (words_in (codes "run p.cql --only csv --only csv")) ≡ None }
    ensures only_upper { reads (words_in (codes "run p.cql --only CSV")) ≡ None }
    ensures end_first { reads (words_in (codes "-- run p.cql")) ≡ None }
    ensures other_form { reads (words_in (codes "draw p.cql")) ≡ None }
    ensures upper_form { reads (words_in (codes "Run p.cql")) ≡ None }
    ensures help { reads (words_in (codes "--help")) ≡ None }
    ensures short_help { reads (words_in (codes "-h")) ≡ None }
    ensures help_word { reads (words_in (codes "help")) ≡ None }
    ensures help_of_run { reads (words_in (codes "help run")) ≡ None }
    ensures help_of_none { reads (words_in (codes "help draw")) ≡ None }
    ensures version { reads (words_in (codes "-V")) ≡ None }
    ensures run_help { reads (words_in (codes "run p.cql --help")) ≡ None }
    ensures run_short_help { reads (words_in (codes "run -h")) ≡ None }
{}

/// Examples.
pub fn examples_by_example()
    ensures most { reads (words_in (codes "example 199999")) ≡ Some (example 199999) }
    ensures plus { reads (words_in (codes "example +3")) ≡ Some (example 3) }
    ensures zeros { reads (words_in (codes "example 007")) ≡ Some (example 7) }
    ensures zero { reads (words_in (codes "example 0")) ≡ None }
    ensures more { reads (words_in (codes "example 200000")) ≡ None }
    ensures minus_zero { reads (words_in (codes "example -0")) ≡ None }
    ensures behind_the_end { reads (words_in (codes "example -- -3")) ≡ None }
    ensures depth { reads (words_in (codes "example 3 --depth 5")) ≡ None }
{}

/// Terms to explain.
pub fn explanations_by_example()
    ensures plain { reads (words_in (codes "explain p.cql I a b"))
        ≡ Some (explain (codes "p.cql") (codes "I") (codes "a") (codes "b") 16) }
    ensures deep { reads (words_in (codes "explain p.cql --depth 3 I a b"))
        ≡ Some (explain (codes "p.cql") (codes "I") (codes "a") (codes "b") 3) }
    ensures empty { reads (words_in (codes "explain p.cql I  b"))
        ≡ Some (explain (codes "p.cql") (codes "I") [] (codes "b") 16) }
    ensures dashes { reads (words_in (codes "explain p.cql I -- -a -b"))
        ≡ Some (explain (codes "p.cql") (codes "I") (codes "-a") (codes "-b") 16) }
    ensures dash { reads (words_in (codes "explain p.cql I a -b")) ≡ None }
    ensures few { reads (words_in (codes "explain p.cql I a")) ≡ None }
    ensures many { reads (words_in (codes "explain p.cql I a b c")) ≡ None }
    ensures only { reads (words_in (codes "explain p.cql I a b --only csv")) ≡ None }
{}
