// Project folders worked out by hand, and what `plan` prints of them. One file serves all assets, since a plan does not look at bytes.

/// Three groups: one packed together, one entry by entry, one by label. One asset is copied into three bundles.
pub const GAME: &str = "\
    [[group]]\n\
    name = \"Core\"\n\
    fixed = true\n\
    [[group]]\n\
    name = \"Levels\"\n\
    mode = \"separate\"\n\
    remote = true\n\
    [[group]]\n\
    name = \"Skins\"\n\
    mode = \"label\"\n\
    remote = true\n\
    [[asset]]\n\
    guid = \"00000000000000000000000000000001\"\n\
    type = \"T\"\n\
    file = \"a\"\n\
    refs = [\"00000000000000000000000000000007\", \"00000000000000000000000000000002\"]\n\
    [[asset]]\n\
    guid = \"00000000000000000000000000000002\"\n\
    type = \"T\"\n\
    file = \"a\"\n\
    refs = [\"00000000000000000000000000000008\"]\n\
    [[asset]]\n\
    guid = \"00000000000000000000000000000003\"\n\
    type = \"T\"\n\
    file = \"a\"\n\
    refs = [\"00000000000000000000000000000001\", \"00000000000000000000000000000009\"]\n\
    [[asset]]\n\
    guid = \"00000000000000000000000000000004\"\n\
    type = \"T\"\n\
    file = \"a\"\n\
    refs = [\"00000000000000000000000000000009\", \"00000000000000000000000000000005\"]\n\
    [[asset]]\n\
    guid = \"00000000000000000000000000000005\"\n\
    type = \"T\"\n\
    file = \"a\"\n\
    refs = [\"0000000000000000000000000000000a\"]\n\
    [[asset]]\n\
    guid = \"00000000000000000000000000000006\"\n\
    type = \"T\"\n\
    file = \"a\"\n\
    refs = [\"0000000000000000000000000000000a\"]\n\
    [[asset]]\n\
    guid = \"00000000000000000000000000000007\"\n\
    type = \"T\"\n\
    file = \"a\"\n\
    refs = [\"0000000000000000000000000000000b\"]\n\
    [[asset]]\n\
    guid = \"00000000000000000000000000000008\"\n\
    type = \"T\"\n\
    file = \"a\"\n\
    [[asset]]\n\
    guid = \"00000000000000000000000000000009\"\n\
    type = \"T\"\n\
    file = \"a\"\n\
    refs = [\"0000000000000000000000000000000b\"]\n\
    [[asset]]\n\
    guid = \"0000000000000000000000000000000a\"\n\
    type = \"T\"\n\
    file = \"a\"\n\
    [[asset]]\n\
    guid = \"0000000000000000000000000000000b\"\n\
    type = \"T\"\n\
    file = \"a\"\n\
    [[asset]]\n\
    guid = \"0000000000000000000000000000000c\"\n\
    type = \"T\"\n\
    file = \"a\"\n\
    [[entry]]\n\
    guid = \"00000000000000000000000000000001\"\n\
    group = \"Core\"\n\
    address = \"hero\"\n\
    labels = [\"start\"]\n\
    [[entry]]\n\
    guid = \"00000000000000000000000000000002\"\n\
    group = \"Core\"\n\
    address = \"ui\"\n\
    [[entry]]\n\
    guid = \"00000000000000000000000000000003\"\n\
    group = \"Levels\"\n\
    address = \"level1\"\n\
    labels = [\"start\"]\n\
    [[entry]]\n\
    guid = \"00000000000000000000000000000004\"\n\
    group = \"Levels\"\n\
    address = \"level2\"\n\
    [[entry]]\n\
    guid = \"00000000000000000000000000000005\"\n\
    group = \"Skins\"\n\
    address = \"skin_red\"\n\
    labels = [\"red\"]\n\
    [[entry]]\n\
    guid = \"00000000000000000000000000000006\"\n\
    group = \"Skins\"\n\
    address = \"skin_blue\"\n\
    labels = [\"red\", \"blue\"]\n\
    [[entry]]\n\
    guid = \"0000000000000000000000000000000c\"\n\
    group = \"Skins\"\n\
    address = \"skin_old\"\n\
    labels = [\"red\"]\n";

pub const GAME_TEXT: &str = "\
    bundle 0 Core_assets_all\n\
    entry 00000000000000000000000000000001\n\
    entry 00000000000000000000000000000002\n\
    copy 00000000000000000000000000000007\n\
    copy 00000000000000000000000000000008\n\
    copy 0000000000000000000000000000000b\n\
    bundle 1 Levels_assets_00000000000000000000000000000003\n\
    entry 00000000000000000000000000000003\n\
    copy 00000000000000000000000000000009\n\
    copy 0000000000000000000000000000000b\n\
    dep 0\n\
    bundle 2 Levels_assets_00000000000000000000000000000004\n\
    entry 00000000000000000000000000000004\n\
    copy 00000000000000000000000000000009\n\
    copy 0000000000000000000000000000000b\n\
    dep 4\n\
    bundle 3 Skins_labels_blue_red\n\
    entry 00000000000000000000000000000006\n\
    copy 0000000000000000000000000000000a\n\
    bundle 4 Skins_labels_red\n\
    entry 00000000000000000000000000000005\n\
    entry 0000000000000000000000000000000c\n\
    copy 0000000000000000000000000000000a\n";

/// Two bundles that need each other.
pub const RING: &str = "\
    [[group]]\n\
    name = \"X\"\n\
    [[group]]\n\
    name = \"Y\"\n\
    [[asset]]\n\
    guid = \"00000000000000000000000000000001\"\n\
    type = \"T\"\n\
    file = \"a\"\n\
    refs = [\"00000000000000000000000000000001\", \"00000000000000000000000000000002\"]\n\
    [[asset]]\n\
    guid = \"00000000000000000000000000000002\"\n\
    type = \"T\"\n\
    file = \"a\"\n\
    refs = [\"00000000000000000000000000000001\"]\n\
    [[entry]]\n\
    guid = \"00000000000000000000000000000001\"\n\
    group = \"X\"\n\
    address = \"k\"\n\
    [[entry]]\n\
    guid = \"00000000000000000000000000000002\"\n\
    group = \"Y\"\n\
    address = \"k\"\n";

pub const RING_TEXT: &str = "\
    bundle 0 X_assets_all\n\
    entry 00000000000000000000000000000001\n\
    dep 1\n\
    bundle 1 Y_assets_all\n\
    entry 00000000000000000000000000000002\n\
    dep 0\n";

/// Projects that are refused, with their status and line.
pub const REFUSED: [(&str, u8, &str); 4] = [
    ("=", 4, "error 4 2 - 0\n"),
    (
        "[[variable]]\nname = \"A\"\nvalue = \"[A]\"\n",
        4,
        "error 4 10 variable 0\n",
    ),
    (
        "[[group]]\nname = \"S\"\n[[asset]]\nguid = \"00000000000000000000000000000001\"\ntype = \"T\"\nfile = \"a\"\n[[entry]]\nguid = \"00000000000000000000000000000001\"\ngroup = \"S\"\naddress = \"k\"\nlabels = [\"0\", \"1\", \"2\", \"3\", \"4\", \"5\", \"6\", \"7\", \"8\", \"9\", \"10\", \"11\", \"12\", \"13\", \"14\", \"15\", \"16\", \"17\", \"18\", \"19\", \"20\", \"21\", \"22\", \"23\", \"24\", \"25\", \"26\", \"27\", \"28\", \"29\", \"30\", \"31\", \"32\"]\n",
        4,
        "error 4 11 labels 33\n",
    ),
    (
        "[[group]]\nname = \"aaaaaaaaaaaaaaaaaaaaaaaaaaaaaaaaaaaaaaaaaaaaaaaaaaaaaaaaaaaaaaaaaaaaaaaaaaaaaaaaaaaaaaaaaaaaaaaaaaaaaaaaaaaaaaaaaaaaaaaaaaaaaaaaaaaaaaaaaaaaaaaaaaaaaaaaaaaaaaaaaaaaaaaaaaaaaaaaaaaaaaaaaaaaaaaaaaaaaaaa\"\n[[asset]]\nguid = \"00000000000000000000000000000001\"\ntype = \"T\"\nfile = \"a\"\n[[entry]]\nguid = \"00000000000000000000000000000001\"\ngroup = \"aaaaaaaaaaaaaaaaaaaaaaaaaaaaaaaaaaaaaaaaaaaaaaaaaaaaaaaaaaaaaaaaaaaaaaaaaaaaaaaaaaaaaaaaaaaaaaaaaaaaaaaaaaaaaaaaaaaaaaaaaaaaaaaaaaaaaaaaaaaaaaaaaaaaaaaaaaaaaaaaaaaaaaaaaaaaaaaaaaaaaaaaaaaaaaaaaaaaaaaa\"\naddress = \"k\"\n",
        11,
        "error 11 bundle-name 211\n",
    ),
];
