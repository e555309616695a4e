// Command lines, rows and scripts that are refused; beside rows and scripts stands their first bad line.

/// Words that are no command's.
pub const WORDS: [&str; 11] = [
    "",
    "fly",
    "plan",
    "simulate",
    "simulate r",
    "simulate r s s",
    "Simulate r s",
    "rows",
    "rows r s",
    "Rows r",
    "--help",
];

pub const ROWS: [(&str, u32); 9] = [
    ("", 1),
    ("x\n", 1),
    ("addr-rows 1\r\n", 1),
    ("addr-rows 1\n\n", 2),
    (
        "addr-rows 1\nbundle A 01 00000000000000000000000000000000 A a\n",
        2,
    ),
    (
        "addr-rows 1\nbundle A 18446744073709551616 00000000000000000000000000000000 A a\n",
        2,
    ),
    (
        "addr-rows 1\nbundle A 1 00000000000000000000000000000000 A a\nasset a T 1 k\n",
        3,
    ),
    (
        "addr-rows 1\nbundle A 1 00000000000000000000000000000000 A a\nasset a T 0 k,k\n",
        3,
    ),
    (
        "addr-rows 1\nbundle A 1 00000000000000000000000000000000 A a\nasset a T 0",
        3,
    ),
];

pub const SCRIPTS: [(&str, u32); 38] = [
    ("\n", 1),
    ("fly\n", 1),
    ("close\n\nfly\n", 2),
    ("close\r\n", 1),
    ("close \n", 1),
    (" close\n", 1),
    ("Close\n", 1),
    ("count 00\n", 1),
    ("count +1\n", 1),
    ("count 4294967296\n", 1),
    ("count\n", 1),
    ("count 1 1\n", 1),
    ("count é\n", 1),
    ("release 0\n", 1),
    ("release 0  0\n", 1),
    ("release 0\t0\n", 1),
    ("close\nrelease 0 0\nrel", 3),
    ("limit 0\n", 1),
    ("limit 05\n", 1),
    ("limit 1000001\n", 1),
    ("limit 5\nlimit 5\n", 2),
    ("close\nlimit 5\n", 2),
    ("load 0 one first %* \n", 1),
    ("load 0 one first %* tree,\n", 1),
    ("load 0 one first %* ,tree\n", 1),
    ("load 0 one first %* %74ree\n", 1),
    ("load 0 one first %* %-\n", 1),
    ("load 0 some first %* tree\n", 1),
    ("load 0 one last %* tree\n", 1),
    ("load 0 one first %? tree\n", 1),
    ("load 0 one first tree\n", 1),
    ("read 0\n", 1),
    ("set a\n", 1),
    ("set a b c\n", 1),
    ("set a b\nclose\nset a b\n", 3),
    ("fail 1 0 memory\n", 1),
    ("fail 1 0 refused:65536\n", 1),
    ("fail 1 0 fault:18446744073709551616\n", 1),
];

/// Scripts that are read, with their replies.
pub const SOUND_SCRIPTS: [(&str, &str); 5] = [
    ("", ""),
    ("limit 1", ""),
    ("limit 1000000\ncount 0", "count 0 absent\n"),
    ("count 0", "count 0 absent\n"),
    ("limit 9\nset a b\nset % %20\ncount 0\n", "count 0 absent\n"),
];
