// Worked rows: one bundle A and one bundle B, and three assets, with the replies that their source states. Commands are
// parted by semicolons, and each stands before its reply; `load KEYS` is short for `load 0 one first %* KEYS`.
pub const ROWS: &str = "addr-rows 1
bundle A 100 00000000000000000000000000000000 A local/A
bundle B 200 00000000000000000000000000000000 B local/B
asset 00000000000000000000000000000001 Mesh 0 tree,00000000000000000000000000000001,green
asset 00000000000000000000000000000002 Mesh 1,0 bush,00000000000000000000000000000002,green
asset 00000000000000000000000000000003 Mesh 0 green,00000000000000000000000000000003
";

pub const SCRIPTS: [&str; 9] = [
    // the first path
    "load tree = op 0; count 0 = count 1 queued; release 0 0 = released; count 0 = count 0 absent",
    // several rows under one key, and an unknown key that is passed over
    "load green = op 0; load nope,bush = op 1",
    // pending and kept
    "load tree = op 0; take 1 = bundle 0; release 0 0 = released; count 0 = count 0 fetching; load tree = op 1; take 2 = idle; done 2 0 = not-taken; done 1 0 = kept; status 1 = ready",
    // dropped
    "load tree = op 0; take 1 = bundle 0; release 0 0 = released; count 0 = count 0 fetching; done 1 0 = dropped; count 0 = count 0 absent",
    // a failed dependency and its retry
    "load bush = op 0; take 1 = bundle 1; fail 1 1 missing = failed; status 0 = failed 1 missing; load bush = op 1; take 1 = bundle 0; take 2 = bundle 1; done 1 0 = kept; done 2 1 = kept; status 0 = failed 1 missing; status 1 = ready; count 1 = count 2 resident; release 0 0 = released; release 0 0 = no-handle; status 0 = no-handle",
    // a limit, and closing
    "limit 5; load tree = op 0; load tree = journal-full 1 4 2; release 0 0 = released; load tree = journal-full 2 1 4; close = close; close = closed; load tree = closed",
    // acquired: an operation stays until it is released as often as it was opened and acquired, and each release has its room
    "limit 7; load tree = op 0; acquire 0 0 = acquired; acquire 0 0 = journal-full 2 5 2; refs 0 = refs 2; release 0 0 = released; count 0 = count 1 queued; release 0 0 = released; count 0 = count 0 absent; release 0 0 = no-handle; acquire 0 0 = no-handle",
    "limit 6; load tree = op 0; acquire 0 0 = journal-full 1 4 2",
    // shared by two operations
    "load tree = op 0; load tree = op 1; take 1 = bundle 0; done 1 0 = kept; release 0 0 = released; count 0 = count 1 resident; release 0 1 = released; count 0 = count 0 absent; take 1 = idle; close = close; take 1 = end",
];

/// Scripts on merge modes, types and reading, each with its replies.
pub const READINGS: [(&str, &str); 5] = [
    (
        "load 0 one first %* green
load 0 all union %* nope,green
load 0 one first %* nope,bush
load 0 all inter %* green,nope
load 0 all inter %* tree,bush
load 0 all union Sprite green
read 1 3
read 1 2
",
        "op 0\nop 1\nop 2\nno-location nope\nno-location %-\nno-location green\nno-asset\npending\n",
    ),
    (
        "load 0 one first %* tree
load 0 one first %* tree
take 1
done 1 0
release 0 0
read 1 0
readall 1 0
count 0
release 0 1
readall 1 0
count 0
take 1
close
take 1
",
        "op 0\nop 1\nbundle 0\nkept\nreleased\nbytes 16 00000000000000000000000000000001\nall 1 00000000000000000000000000000001:16:00000000000000000000000000000001\ncount 1 resident\nreleased\nno-handle\ncount 0 absent\nidle\nclose\nend\n",
    ),
    (
        "load 0 all first Mesh green
take 1
fail 1 0 fault:7
read 0 0
",
        "op 0\nbundle 0\nfailed\nfailed 0 fault:7\n",
    ),
    (
        "load 0 all union %* green,bush
take 1
take 1
done 1 0
done 1 1
read 0 1
read 0 2
read 0 3
",
        "op 0\nbundle 0\nbundle 1\nkept\nkept\nbytes 16 00000000000000000000000000000002\nbytes 16 00000000000000000000000000000003\nno-asset\n",
    ),
    (
        "load 0 all inter Mesh green,tree
take 1
done 1 0
read 0 0
read 0 1
",
        "op 0\nbundle 0\nkept\nbytes 16 00000000000000000000000000000001\nno-asset\n",
    ),
];
