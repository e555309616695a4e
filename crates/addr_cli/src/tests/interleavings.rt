// Small scripts with their replies, worked out by hand from the definitions of the machine. Commands are parted by
// semicolons, and each stands before its reply; `load KEYS` is short for `load 0 one first %* KEYS`. The rows have three
// bundles 0, 1 and 2, and the keys a, b, c, ab, bc, ca and abc, each of one asset that needs the bundles of its letters
// in that order.
pub const ROWS: &str = "addr-rows 1
bundle A 1 00000000000000000000000000000000 A a
bundle B 2 00000000000000000000000000000000 B b
bundle C 3 00000000000000000000000000000000 C c
asset a T 0 a
asset b T 1 b
asset c T 2 c
asset ab T 0,1 ab
asset bc T 1,2 bc
asset ca T 2,0 ca
asset abc T 0,1,2 abc
";

pub const SCRIPTS: [&str; 70] = [
    // counts
    "load a = op 0; load a = op 1; count 0 = count 2 queued; release 0 0 = released; count 0 = count 1 queued; release 0 1 = released; count 0 = count 0 absent",
    "load a = op 0; load ab = op 1; load abc = op 2; count 0 = count 3 queued; count 1 = count 2 queued; count 2 = count 1 queued",
    "load a = op 0; load a = op 1; load a = op 2; take 1 = bundle 0; count 0 = count 3 fetching; done 1 0 = kept; count 0 = count 3 resident; release 0 1 = released; release 0 0 = released; count 0 = count 1 resident; release 0 2 = released; count 0 = count 0 absent",
    "load a,a = op 0; count 0 = count 1 queued; take 1 = bundle 0; take 1 = idle",
    "count 2 = count 0 absent; count 3 = no-bundle; count 4294967295 = no-bundle",
    // operations
    "status 0 = no-handle; load a = op 0; status 0 = pending; status 1 = no-handle; status 4294967295 = no-handle",
    "load a = op 0; release 0 0 = released; release 0 0 = no-handle; release 1 0 = no-handle; status 0 = no-handle",
    "load a = op 0; release 7 0 = released; status 0 = no-handle",
    "load a = op 0; release 0 0 = released; load a = op 1; release 0 1 = released; load b = op 2; status 2 = pending; release 0 3 = no-handle",
    "release 0 0 = no-handle; load a = op 0; release 0 0 = released",
    // two workers on one bundle
    "load a = op 0; take 1 = bundle 0; take 2 = idle; done 2 0 = not-taken; fail 2 0 missing = not-taken; done 1 0 = kept; done 1 0 = not-taken; fail 1 0 missing = not-taken; status 0 = ready",
    "load ab = op 0; take 1 = bundle 0; take 2 = bundle 1; done 1 1 = not-taken; done 2 0 = not-taken; done 2 1 = kept; status 0 = pending; done 1 0 = kept; status 0 = ready",
    "load ab = op 0; take 1 = bundle 0; take 1 = bundle 1; take 1 = idle; done 1 1 = kept; done 1 0 = kept; status 0 = ready",
    "load abc = op 0; take 1 = bundle 0; take 2 = bundle 1; take 3 = bundle 2; take 4 = idle; done 3 2 = kept; done 2 1 = kept; status 0 = pending; done 1 0 = kept; status 0 = ready",
    "load a = op 0; take 4294967295 = bundle 0; done 4294967294 0 = not-taken; done 4294967295 0 = kept",
    "load a = op 0; take 0 = bundle 0; done 0 0 = kept; take 0 = idle",
    "done 1 0 = not-taken; fail 1 0 missing = not-taken; done 1 9 = not-taken; fail 1 9 missing = not-taken; take 1 = idle",
    "load a = op 0; done 1 0 = not-taken; fail 1 0 missing = not-taken; count 0 = count 1 queued",
    // the order of the queue
    "load bc = op 0; load ab = op 1; take 1 = bundle 1; take 1 = bundle 2; take 1 = bundle 0; take 1 = idle",
    "load ca = op 0; take 1 = bundle 2; take 1 = bundle 0; take 1 = idle",
    "load a = op 0; load b = op 1; release 0 0 = released; load a = op 2; take 1 = bundle 1; take 1 = bundle 0",
    "load a = op 0; load b = op 1; load a = op 2; release 0 0 = released; take 1 = bundle 0; take 1 = bundle 1",
    "load abc = op 0; load c = op 1; release 0 0 = released; load ab = op 2; take 1 = bundle 2; take 1 = bundle 0; take 1 = bundle 1",
    "load ab = op 0; load bc = op 1; release 0 0 = released; count 0 = count 0 absent; count 1 = count 1 queued; take 1 = bundle 1; take 1 = bundle 2; take 1 = idle",
    "load c = op 0; load b = op 1; load a = op 2; take 1 = bundle 2; take 2 = bundle 1; take 3 = bundle 0",
    // released while it is fetched
    "load a = op 0; take 1 = bundle 0; release 0 0 = released; count 0 = count 0 fetching; load a = op 1; count 0 = count 1 fetching; take 2 = idle; done 1 0 = kept; status 1 = ready; status 0 = no-handle",
    "load a = op 0; take 1 = bundle 0; release 0 0 = released; done 1 0 = dropped; count 0 = count 0 absent; load a = op 1; count 0 = count 1 queued; take 1 = bundle 0; done 1 0 = kept",
    "load a = op 0; take 1 = bundle 0; release 0 0 = released; load a = op 1; release 0 1 = released; done 1 0 = dropped; count 0 = count 0 absent; take 1 = idle",
    "load a = op 0; take 1 = bundle 0; load a = op 1; release 0 0 = released; count 0 = count 1 fetching; done 1 0 = kept; status 1 = ready",
    "load a = op 0; take 1 = bundle 0; release 0 0 = released; done 1 0 = dropped; load a = op 1; take 2 = bundle 0; done 1 0 = not-taken; done 2 0 = kept",
    "load abc = op 0; take 1 = bundle 0; done 1 0 = kept; take 1 = bundle 1; release 0 0 = released; count 0 = count 0 absent; count 1 = count 0 fetching; count 2 = count 0 absent; done 1 1 = dropped; take 1 = idle",
    "load a = op 0; take 1 = bundle 0; release 0 0 = released; take 2 = idle; load ab = op 1; take 2 = bundle 1; done 1 0 = kept; status 1 = pending; done 2 1 = kept; status 1 = ready",
    // resident bundles
    "load a = op 0; take 1 = bundle 0; done 1 0 = kept; load a = op 1; status 1 = ready; take 1 = idle; release 0 0 = released; status 1 = ready; count 0 = count 1 resident",
    "load a = op 0; take 1 = bundle 0; done 1 0 = kept; release 0 0 = released; load a = op 1; status 1 = pending; take 2 = bundle 0; done 2 0 = kept; status 1 = ready",
    "load ab = op 0; take 1 = bundle 0; done 1 0 = kept; load a = op 1; status 1 = ready; status 0 = pending; release 0 0 = released; count 0 = count 1 resident; count 1 = count 0 absent; take 1 = idle",
    "load a = op 0; take 1 = bundle 0; done 1 0 = kept; load ab = op 1; status 1 = pending; take 1 = bundle 1; done 1 1 = kept; status 1 = ready; release 0 1 = released; count 0 = count 1 resident; count 1 = count 0 absent",
    "load a = op 0; take 1 = bundle 0; done 1 0 = kept; release 0 0 = released; release 0 0 = no-handle; count 0 = count 0 absent; take 1 = idle",
    // failures
    "load a = op 0; take 1 = bundle 0; fail 1 0 missing = failed; count 0 = count 1 absent; take 1 = idle; load a = op 1; count 0 = count 2 queued; take 1 = bundle 0; done 1 0 = kept; status 0 = failed 0 missing; status 1 = ready; release 0 1 = released; count 0 = count 1 resident; release 0 0 = released; count 0 = count 0 absent",
    "load a = op 0; take 1 = bundle 0; fail 1 0 missing = failed; load a = op 1; release 0 1 = released; count 0 = count 1 queued; take 1 = bundle 0; done 1 0 = kept; status 0 = failed 0 missing",
    "load a = op 0; take 1 = bundle 0; load a = op 1; fail 1 0 missing = failed; status 0 = failed 0 missing; status 1 = failed 0 missing; load a = op 2; status 2 = pending; take 2 = bundle 0; done 2 0 = kept; status 2 = ready; status 1 = failed 0 missing",
    "load ab = op 0; take 1 = bundle 0; take 2 = bundle 1; fail 2 1 missing = failed; fail 1 0 fault:9 = failed; status 0 = failed 1 missing",
    "load ab = op 0; take 1 = bundle 0; fail 1 0 missing = failed; take 1 = bundle 1; done 1 1 = kept; status 0 = failed 0 missing; count 1 = count 1 resident; count 0 = count 1 absent",
    "load a = op 0; load b = op 1; take 1 = bundle 0; fail 1 0 missing = failed; load a = op 2; take 1 = bundle 1; take 1 = bundle 0",
    "load ab = op 0; take 1 = bundle 0; fail 1 0 missing = failed; load ab = op 1; take 1 = bundle 1; take 1 = bundle 0; done 1 1 = kept; done 1 0 = kept; status 1 = ready; status 0 = failed 0 missing",
    "load a = op 0; take 1 = bundle 0; fail 1 0 missing = failed; load a = op 1; take 2 = bundle 0; fail 1 0 missing = not-taken; done 1 0 = not-taken; done 2 0 = kept; status 1 = ready",
    "load a = op 0; take 1 = bundle 0; fail 1 0 missing = failed; load b = op 1; status 1 = pending; status 0 = failed 0 missing",
    "load a = op 0; take 1 = bundle 0; fail 1 0 missing = failed; release 0 0 = released; status 0 = no-handle; count 0 = count 0 absent",
    "load a = op 0; take 1 = bundle 0; fail 1 0 fault:1 = failed; load a = op 1; take 1 = bundle 0; fail 1 0 fault:2 = failed; status 0 = failed 0 fault:1; status 1 = failed 0 fault:2",
    // failed after it was released
    "load a = op 0; take 1 = bundle 0; release 0 0 = released; fail 1 0 missing = failed; count 0 = count 0 absent; status 0 = no-handle; take 1 = idle",
    "load a = op 0; load a = op 1; take 1 = bundle 0; release 0 0 = released; fail 1 0 fault:3 = failed; status 1 = failed 0 fault:3; count 0 = count 1 absent; take 1 = idle",
    "load a = op 0; take 1 = bundle 0; release 0 0 = released; load a = op 1; fail 1 0 missing = failed; status 1 = failed 0 missing; take 1 = idle; load a = op 2; take 1 = bundle 0",
    // causes
    "load a = op 0; take 1 = bundle 0; fail 1 0 fault:0 = failed; status 0 = failed 0 fault:0",
    "load a = op 0; take 1 = bundle 0; fail 1 0 fault:18446744073709551615 = failed; status 0 = failed 0 fault:18446744073709551615",
    "load b = op 0; take 1 = bundle 1; fail 1 1 toolong:1073741825 = failed; status 0 = failed 1 toolong:1073741825",
    "load c = op 0; take 1 = bundle 2; fail 1 2 refused:65535 = failed; status 0 = failed 2 refused:65535",
    // keys
    "load nope,b = op 0; take 1 = bundle 1; load b,a = op 1; take 1 = idle; count 0 = count 0 absent",
    "load nope = no-location nope; load x,y = no-location x; load a = op 0",
    "load x%20y = no-location x%20y; load % = no-location %; load %25 = no-location %25; load %C3%A9,a = op 0",
    // closing
    "load a = op 0; load b = op 1; take 1 = bundle 0; close = close; take 2 = bundle 1; done 1 0 = kept; done 2 1 = kept; status 0 = ready; status 1 = ready; take 1 = end; close = closed; load a = closed",
    "close = close; take 1 = end; close = closed; count 0 = count 0 absent; load nope = closed; release 0 0 = no-handle",
    "load a = op 0; close = close; release 0 0 = released; take 1 = end; count 0 = count 0 absent",
    "load a = op 0; take 1 = bundle 0; close = close; take 2 = end; release 0 0 = released; done 1 0 = dropped; count 0 = count 0 absent",
    "load a = op 0; take 1 = bundle 0; close = close; fail 1 0 refused:404 = failed; status 0 = failed 0 refused:404; take 1 = end",
    // limits
    "limit 7; load a = op 0; load a = op 1; load a = journal-full 2 5 2; take 1 = bundle 0; load a = journal-full 3 4 2; done 1 0 = kept; load a = journal-full 4 3 2; release 0 0 = released; load a = journal-full 5 2 2; release 0 1 = released; load a = journal-full 6 1 4; close = close; load a = closed",
    "limit 9; load a = op 0; take 1 = bundle 0; fail 1 0 missing = failed; load a = op 1; load a = journal-full 4 5 2; take 1 = bundle 0; load a = journal-full 5 4 2; done 1 0 = kept; release 0 0 = released; release 0 1 = released; load a = journal-full 8 1 4; close = close",
    "limit 1; load nope = no-location nope; load a = journal-full 0 1 4; close = close; take 1 = end",
    "limit 6; load ab = journal-full 0 1 6; load a = op 0; load b = journal-full 1 4 4; release 0 0 = released; load a = journal-full 2 1 4",
    "limit 7; load ab = op 0; load c = journal-full 1 6 4; take 1 = bundle 0; load a = journal-full 2 5 2; done 1 0 = kept; load c = journal-full 3 4 4",
    "limit 8; load a = op 0; take 1 = bundle 0; release 0 0 = released; load a = op 1; load a = journal-full 4 3 2; done 1 0 = kept; release 0 1 = released; load a = journal-full 6 1 4",
    "limit 1000000; load a = op 0; take 1 = bundle 0; done 1 0 = kept; status 0 = ready",
];
