//! Law that fixes the value of each limit.

ghost use Rattle.std.specs.Prelude.{◌≡◌};
ghost use Rattle.wl_limits.specs.declared.brokers.TheConstants.{LAST_GENERATION};
ghost use Rattle.wl_limits.specs.declared.frames.TheConstants.{LEAST_BODY, BODY_LIMIT, ENTRY_LIMIT, REPORT_PART_LIMIT, SNAPSHOT_PART_LIMIT, LIST_LIMIT};
ghost use Rattle.wl_limits.specs.declared.scripts.TheConstants.{LINE_LIMIT};
ghost use Rattle.wl_limits.specs.declared.tabs.TheConstants.{LIVING_LIMIT, PARTITION_LIMIT, LAST_TAB, COMMAND_LIMIT, LAST_NUMBER, LIVE_LIMIT, LIVE_LIMIT_IN_PARTS};
ghost use Rattle.wl_limits.specs.declared.texts.TheConstants.{URL_LIMIT, ORIGIN_LIMIT, NAME_LIMIT, DATA_LIMIT};

/// States the value of each limit. All other contracts cite the limits by name, and would hold for
/// other values too.
pub fn law_limits()
    // Largest numbers of tabs, generations and commands.
    ensures last_tab { LAST_TAB ≡ 65535 }
    ensures last_generation { LAST_GENERATION ≡ 65535 }
    ensures last_number { LAST_NUMBER ≡ 4294967295 }
    ensures commands { COMMAND_LIMIT ≡ 1000000 }
    // Tabs alive at the same time: in total, and in one partition.
    ensures living { LIVING_LIMIT ≡ 1024 }
    ensures partition { PARTITION_LIMIT ≡ 64 }
    // Live locks of one tab: if it reports in a single frame, and if it reports in parts.
    ensures live { LIVE_LIMIT ≡ 64 }
    ensures live_in_parts { LIVE_LIMIT_IN_PARTS ≡ 1024 }
    // Bytes of a body; entries of a report or a part; parts of a report and of a snapshot; tabs in
    // a start list.
    ensures least_body { LEAST_BODY ≡ 2 }
    ensures body { BODY_LIMIT ≡ 65536 }
    ensures entries { ENTRY_LIMIT ≡ 64 }
    ensures report_parts { REPORT_PART_LIMIT ≡ 16 }
    ensures snapshot_parts { SNAPSHOT_PART_LIMIT ≡ 65535 }
    ensures list { LIST_LIMIT ≡ 1024 }
    // Bytes of a URL, an origin, a name, a post's data, and a line of a script.
    ensures url { URL_LIMIT ≡ 2048 }
    ensures origin { ORIGIN_LIMIT ≡ 4096 }
    ensures name { NAME_LIMIT ≡ 255 }
    ensures data { DATA_LIMIT ≡ 16384 }
    ensures line { LINE_LIMIT ≡ 65536 }
{}
