//! Files, directories and their caps, all made by other programs.

use crate::gateway::Row;

/// A file of 56 bytes, and its cap.
pub const LETTERS: &[u8] = b"aaaaaaaaaaaaaaaaaaaaaaaaaaaaaaaaaaaaaaaaaaaaaaaaaaaaaaaa";

pub const LETTERS_CAP: &str =
    "URI:CHK:xciehu7wkhrkdhseyznarsl6n4:ro65en3n4zxwl3gfinnekkeqado3jxpde7tfaj3sr7als57h4qoa:3:10:56";

/// The cap of the same bytes, of which there is one share.
pub const LETTERS_ALONE: &str =
    "URI:CHK:yojn7n7y7vvlbn6xsnv4vokqqe:oisoh3fpxw3z5xxiyvt7mxkg6wfrjwawrtwmpubfe63c2nbun2jq:1:1:56";

/// A file of 57 bytes, and its cap.
pub const MORE: &[u8] = b"bbbbbbbbbbbbbbbbbbbbbbbbbbbbbbbbbbbbbbbbbbbbbbbbbbbbbbbbb";

pub const MORE_CAP: &str =
    "URI:CHK:6ciiwhgqcopoxeosnmghodolue:oq6h2pvdnagn6ypuoe6qdlidcnakaq7yq2wsv2ht22ot2zxndadq:3:10:57";

/// A file that stands in its cap.
pub const SHORT: &[u8] = b"foobar";

pub const SHORT_CAP: &str = "URI:LIT:mzxw6ytboi";

/// A directory of the last two, named `deep` and `lit`, and its cap.
pub const BELOW: &[u8] = b"114:4:deep,95:\
    URI:CHK:6ciiwhgqcopoxeosnmghodolue:oq6h2pvdnagn6ypuoe6qdlidcnakaq7yq2wsv2ht22ot2zxndadq:3:10:57,0:,2:{},,\
    36:3:lit,18:URI:LIT:mzxw6ytboi,0:,2:{},,";

pub const BELOW_CAP: &str =
    "URI:DIR2-CHK:ts6pgm4nz3accm47pxxgymy3ae:gozvqwbycqq3ocxoitp2exqbblx2vqw2bpmdoyiblxgh3l5ngdkq:3:10:159";

/// A directory of the two stored files, named `a` and `b`, and of the directory, named `sub`; and its cap.
pub const TOP: &[u8] = b"111:1:a,95:\
    URI:CHK:xciehu7wkhrkdhseyznarsl6n4:ro65en3n4zxwl3gfinnekkeqado3jxpde7tfaj3sr7als57h4qoa:3:10:56,0:,2:{},,\
    111:1:b,95:\
    URI:CHK:6ciiwhgqcopoxeosnmghodolue:oq6h2pvdnagn6ypuoe6qdlidcnakaq7yq2wsv2ht22ot2zxndadq:3:10:57,0:,2:{},,\
    120:3:sub,101:\
    URI:DIR2-CHK:ts6pgm4nz3accm47pxxgymy3ae:gozvqwbycqq3ocxoitp2exqbblx2vqw2bpmdoyiblxgh3l5ngdkq:3:10:159,0:,2:{},,";

pub const TOP_CAP: &str =
    "URI:DIR2-CHK:jqwjpnby7uhg6qwzcvqna7gkr4:4wt4p4lntuupxodskr6qribv4bk2ydd6dwwoylmlcuycvlhddvxa:3:10:357";

/// The names and caps of its children.
pub const TOP_CHILDREN: &[(&str, &str)] = &[
    ("a", LETTERS_CAP),
    ("b", MORE_CAP),
    ("sub", BELOW_CAP),
];

/// What stands below it: each file's path and bytes.
pub const TOP_FILES: &[(&str, &[u8])] = &[
    ("a", LETTERS),
    ("b", MORE),
    ("sub/deep", MORE),
    ("sub/lit", SHORT),
];

/// What an honest gateway is asked, and answers.
pub const ROWS: &[Row<'static>] = &[
    Row {
        begins: b"GET /uri/URI:CHK:xciehu7wkhrkdhseyznarsl6n4:",
        has: b"",
        body: LETTERS,
    },
    Row {
        begins: b"GET /uri/URI:CHK:6ciiwhgqcopoxeosnmghodolue:",
        has: b"",
        body: MORE,
    },
    Row {
        begins: b"GET /uri/URI:CHK:ts6pgm4nz3accm47pxxgymy3ae:",
        has: b"",
        body: BELOW,
    },
    Row {
        begins: b"GET /uri/URI:CHK:jqwjpnby7uhg6qwzcvqna7gkr4:",
        has: b"",
        body: TOP,
    },
    Row {
        begins: b"PUT /uri ",
        has: LETTERS,
        body: b"URI:CHK:xciehu7wkhrkdhseyznarsl6n4:ro65en3n4zxwl3gfinnekkeqado3jxpde7tfaj3sr7als57h4qoa:3:10:56",
    },
    Row {
        begins: b"PUT /uri ",
        has: MORE,
        body: b"URI:CHK:6ciiwhgqcopoxeosnmghodolue:oq6h2pvdnagn6ypuoe6qdlidcnakaq7yq2wsv2ht22ot2zxndadq:3:10:57",
    },
    Row {
        begins: b"PUT /uri ",
        has: SHORT,
        body: b"URI:LIT:mzxw6ytboi",
    },
    // the directory at the top, known by the cap of the one below
    Row {
        begins: b"POST /uri?t=mkdir-immutable ",
        has: b"URI:DIR2-CHK:ts6pgm4nz3accm47pxxgymy3ae:",
        body: b"URI:DIR2-CHK:jqwjpnby7uhg6qwzcvqna7gkr4:4wt4p4lntuupxodskr6qribv4bk2ydd6dwwoylmlcuycvlhddvxa:3:10:357",
    },
    Row {
        begins: b"POST /uri?t=mkdir-immutable ",
        has: b"URI:CHK:6ciiwhgqcopoxeosnmghodolue:",
        body: b"URI:DIR2-CHK:ts6pgm4nz3accm47pxxgymy3ae:gozvqwbycqq3ocxoitp2exqbblx2vqw2bpmdoyiblxgh3l5ngdkq:3:10:159",
    },
];
