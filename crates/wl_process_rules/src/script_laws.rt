//! Laws over the definitions of scripts.

ghost use Rattle.std.specs.Prelude.{◌≡◌};
ghost use Rattle.wl_process_rules.specs.CounterFile.{ReadsBack};
ghost use Rattle.wl_process_rules.specs.declared.kernel_line.TheConstants.{PAUSE_LIMIT};
ghost use Rattle.wl_process_rules.specs.declared.counter_file.TheConstants.{COUNT_LIMIT};

/// States that reading the text of a count returns the count.
pub fn law_counts()
    ensures { ReadsBack }
{}

/// States the value of each limit of this crate. All other contracts cite the limits by name.
pub fn law_limits()
    ensures count { COUNT_LIMIT ≡ 1000000 }
    ensures pause { PAUSE_LIMIT ≡ 10000 }
{}
