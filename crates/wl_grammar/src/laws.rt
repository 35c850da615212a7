//! Law that fixes the numbers of the versions and kinds.

ghost use Rattle.std.specs.Prelude.{◌≡◌};
ghost use Rattle.wl_grammar.specs.declared.kinds.TheConstants.{FIRST_VERSION, SECOND_VERSION, COMMAND, REPORT, POST, HELLO, ANSWER, SNAPSHOT, HEARD, WELCOME, STAMPED, START, ADDRESSED, DEAD, REPORT_PART, PAIR_WELCOME};

/// States the version and the code of each kind of body. All other contracts cite them by name, and
/// would hold for other numbers too.
pub fn law_codes()
    ensures versions { (FIRST_VERSION ≡ 1) × (SECOND_VERSION ≡ 2) }
    ensures from_tabs { (COMMAND ≡ 1) × (REPORT ≡ 2) × (POST ≡ 3) }
    ensures to_tabs { (HELLO ≡ 16) × (ANSWER ≡ 17) × (SNAPSHOT ≡ 18) × (HEARD ≡ 19) × (WELCOME ≡ 20) }
    ensures at_the_broker { (STAMPED ≡ 32) × (START ≡ 33) × (ADDRESSED ≡ 34) × (DEAD ≡ 35) }
    ensures of_the_second_version { (REPORT_PART ≡ 2) × (PAIR_WELCOME ≡ 20) }
{}
