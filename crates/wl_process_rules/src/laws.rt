//! Laws that state the numeric values of a limit and a status.

ghost use Rattle.std.specs.Prelude.{◌≡◌};
ghost use Rattle.wl_process_rules.specs.declared.patience.TheConstants.{RESEND_LIMIT};
ghost use Rattle.wl_process_rules.specs.declared.exit_status.TheConstants.{SIGNALLED};

/// States the values of `RESEND_LIMIT` and `SIGNALLED`. All other contracts cite both by name.
pub fn law_limits()
    ensures resends { RESEND_LIMIT ≡ 3000 }
    ensures signalled { SIGNALLED ≡ 128 }
{}
