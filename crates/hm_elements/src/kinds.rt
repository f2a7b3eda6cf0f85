//! What the tables say of each name at once, by number. Written by `tables/element_names.py`.

use crate::class::Class;
use crate::kind::Kind;
use crate::names::NAME_COUNT;

/// Any other name.
const OTHER: Kind = Kind {
    number: 0,
    class: Class::Ordinary,
    heading: false,
    unnested: false,
    closes_p: false,
    boundary: false,
    block: false,
    is_closed_by_start: false,
    closes_open_p: false,
    ends: false,
    p_ends: false,
    has_children: false,
    has_parents: false,
    bound: false,
};

/// `a`, `nobr`.
const A: Kind = Kind {
    unnested: true,
    ..OTHER
};

/// `address`, `article`, `aside`, `blockquote`, `center`, `details` and so on.
const ADDRESS: Kind = Kind {
    closes_p: true,
    block: true,
    closes_open_p: true,
    p_ends: true,
    ..OTHER
};

/// `applet`, `basefont`, `bgsound`, `command`, `frame`, `frameset` and so on.
const APPLET: Kind = Kind {
    class: Class::Refused,
    ..OTHER
};

/// `area`, `br`, `embed`, `img`, `input`, `link` and so on.
const AREA: Kind = Kind {
    class: Class::Void,
    has_children: true,
    ..OTHER
};

/// `base`.
const BASE: Kind = Kind {
    class: Class::Void,
    has_children: true,
    bound: true,
    ..OTHER
};

/// `body`.
const BODY: Kind = Kind {
    class: Class::Root,
    block: true,
    bound: true,
    ..OTHER
};

/// `button`.
const BUTTON: Kind = Kind {
    unnested: true,
    boundary: true,
    p_ends: true,
    ..OTHER
};

/// `caption`, `td`, `th`.
const CAPTION: Kind = Kind {
    class: Class::TablePart,
    boundary: true,
    block: true,
    is_closed_by_start: true,
    closes_open_p: true,
    ends: true,
    p_ends: true,
    bound: true,
    ..OTHER
};

/// `col`.
const COL: Kind = Kind {
    class: Class::Void,
    block: true,
    closes_open_p: true,
    has_children: true,
    bound: true,
    ..OTHER
};

/// `colgroup`.
const COLGROUP: Kind = Kind {
    class: Class::TablePart,
    block: true,
    is_closed_by_start: true,
    closes_open_p: true,
    ends: true,
    has_children: true,
    bound: true,
    ..OTHER
};

/// `dd`, `dt`, `li`.
const DD: Kind = Kind {
    closes_p: true,
    block: true,
    is_closed_by_start: true,
    closes_open_p: true,
    ends: true,
    p_ends: true,
    has_parents: true,
    ..OTHER
};

/// `form`.
const FORM: Kind = Kind {
    unnested: true,
    closes_p: true,
    block: true,
    closes_open_p: true,
    p_ends: true,
    ..OTHER
};

/// `h1`, `h2`, `h3`, `h4`, `h5`, `h6`.
const H1: Kind = Kind {
    heading: true,
    closes_p: true,
    block: true,
    closes_open_p: true,
    p_ends: true,
    ..OTHER
};

/// `head`.
const HEAD: Kind = Kind {
    class: Class::Root,
    block: true,
    has_children: true,
    bound: true,
    ..OTHER
};

/// `hr`.
const HR: Kind = Kind {
    class: Class::Void,
    closes_p: true,
    block: true,
    closes_open_p: true,
    has_children: true,
    ..OTHER
};

/// `html`.
const HTML: Kind = Kind {
    class: Class::Root,
    boundary: true,
    block: true,
    bound: true,
    ..OTHER
};

/// `iframe`, `style`.
const IFRAME: Kind = Kind {
    class: Class::Raw,
    has_children: true,
    ..OTHER
};

/// `legend`.
const LEGEND: Kind = Kind {
    block: true,
    ..OTHER
};

/// `object`.
const OBJECT: Kind = Kind {
    boundary: true,
    p_ends: true,
    ..OTHER
};

/// `optgroup`, `option`.
const OPTGROUP: Kind = Kind {
    block: true,
    is_closed_by_start: true,
    ends: true,
    has_children: true,
    has_parents: true,
    ..OTHER
};

/// `p`.
const P: Kind = Kind {
    closes_p: true,
    block: true,
    is_closed_by_start: true,
    closes_open_p: true,
    ends: true,
    ..OTHER
};

/// `rp`, `rt`.
const RP: Kind = Kind {
    is_closed_by_start: true,
    closes_open_p: true,
    ends: true,
    has_parents: true,
    ..OTHER
};

/// `script`.
const SCRIPT: Kind = Kind {
    class: Class::Script,
    has_children: true,
    ..OTHER
};

/// `select`.
const SELECT: Kind = Kind {
    has_children: true,
    ..OTHER
};

/// `table`.
const TABLE: Kind = Kind {
    class: Class::TablePart,
    closes_p: true,
    boundary: true,
    block: true,
    closes_open_p: true,
    p_ends: true,
    has_children: true,
    ..OTHER
};

/// `tbody`, `tfoot`, `thead`, `tr`.
const TBODY: Kind = Kind {
    class: Class::TablePart,
    block: true,
    is_closed_by_start: true,
    closes_open_p: true,
    ends: true,
    p_ends: true,
    has_children: true,
    bound: true,
    ..OTHER
};

/// `textarea`.
const TEXTAREA: Kind = Kind {
    class: Class::Rcdata,
    has_children: true,
    ..OTHER
};

/// `title`.
const TITLE: Kind = Kind {
    class: Class::Rcdata,
    block: true,
    has_children: true,
    bound: true,
    ..OTHER
};

/// The kind with each number.
#[rattlefmt::skip]
pub(crate) static KINDS: [Kind; NAME_COUNT] = [
    OTHER, Kind { number: 1, ..A }, Kind { number: 2, ..OTHER }, Kind { number: 3, ..ADDRESS }, Kind { number: 4, ..OTHER },
    Kind { number: 5, ..OTHER }, Kind { number: 6, ..OTHER }, Kind { number: 7, ..OTHER }, Kind { number: 8, ..APPLET },
    Kind { number: 9, ..AREA }, Kind { number: 10, ..ADDRESS }, Kind { number: 11, ..ADDRESS }, Kind { number: 12, ..OTHER },
    Kind { number: 13, ..OTHER }, Kind { number: 14, ..OTHER }, Kind { number: 15, ..OTHER }, Kind { number: 16, ..OTHER },
    Kind { number: 17, ..BASE }, Kind { number: 18, ..APPLET }, Kind { number: 19, ..OTHER }, Kind { number: 20, ..OTHER },
    Kind { number: 21, ..APPLET }, Kind { number: 22, ..OTHER }, Kind { number: 23, ..ADDRESS }, Kind { number: 24, ..BODY },
    Kind { number: 25, ..AREA }, Kind { number: 26, ..BUTTON }, Kind { number: 27, ..OTHER }, Kind { number: 28, ..CAPTION },
    Kind { number: 29, ..ADDRESS }, Kind { number: 30, ..OTHER }, Kind { number: 31, ..OTHER }, Kind { number: 32, ..OTHER },
    Kind { number: 33, ..OTHER }, Kind { number: 34, ..OTHER }, Kind { number: 35, ..OTHER }, Kind { number: 36, ..COL },
    Kind { number: 37, ..COLGROUP }, Kind { number: 38, ..APPLET }, Kind { number: 39, ..OTHER }, Kind { number: 40, ..OTHER },
    Kind { number: 41, ..OTHER }, Kind { number: 42, ..DD }, Kind { number: 43, ..OTHER }, Kind { number: 44, ..OTHER },
    Kind { number: 45, ..OTHER }, Kind { number: 46, ..OTHER }, Kind { number: 47, ..OTHER }, Kind { number: 48, ..ADDRESS },
    Kind { number: 49, ..OTHER }, Kind { number: 50, ..ADDRESS }, Kind { number: 51, ..ADDRESS }, Kind { number: 52, ..OTHER },
    Kind { number: 53, ..ADDRESS }, Kind { number: 54, ..ADDRESS }, Kind { number: 55, ..DD }, Kind { number: 56, ..OTHER },
    Kind { number: 57, ..OTHER }, Kind { number: 58, ..AREA }, Kind { number: 59, ..OTHER }, Kind { number: 60, ..OTHER },
    Kind { number: 61, ..OTHER }, Kind { number: 62, ..OTHER }, Kind { number: 63, ..OTHER }, Kind { number: 64, ..OTHER },
    Kind { number: 65, ..OTHER }, Kind { number: 66, ..OTHER }, Kind { number: 67, ..OTHER }, Kind { number: 68, ..OTHER },
    Kind { number: 69, ..OTHER }, Kind { number: 70, ..OTHER }, Kind { number: 71, ..OTHER }, Kind { number: 72, ..OTHER },
    Kind { number: 73, ..OTHER }, Kind { number: 74, ..OTHER }, Kind { number: 75, ..OTHER }, Kind { number: 76, ..OTHER },
    Kind { number: 77, ..OTHER }, Kind { number: 78, ..OTHER }, Kind { number: 79, ..OTHER }, Kind { number: 80, ..OTHER },
    Kind { number: 81, ..OTHER }, Kind { number: 82, ..OTHER }, Kind { number: 83, ..OTHER }, Kind { number: 84, ..ADDRESS },
    Kind { number: 85, ..ADDRESS }, Kind { number: 86, ..ADDRESS }, Kind { number: 87, ..OTHER }, Kind { number: 88, ..OTHER },
    Kind { number: 89, ..ADDRESS }, Kind { number: 90, ..FORM }, Kind { number: 91, ..OTHER }, Kind { number: 92, ..APPLET },
    Kind { number: 93, ..APPLET }, Kind { number: 94, ..OTHER }, Kind { number: 95, ..H1 }, Kind { number: 96, ..H1 },
    Kind { number: 97, ..H1 }, Kind { number: 98, ..H1 }, Kind { number: 99, ..H1 }, Kind { number: 100, ..H1 },
    Kind { number: 101, ..HEAD }, Kind { number: 102, ..ADDRESS }, Kind { number: 103, ..ADDRESS }, Kind { number: 104, ..HR },
    Kind { number: 105, ..HTML }, Kind { number: 106, ..OTHER }, Kind { number: 107, ..OTHER }, Kind { number: 108, ..IFRAME },
    Kind { number: 109, ..APPLET }, Kind { number: 110, ..AREA }, Kind { number: 111, ..OTHER }, Kind { number: 112, ..AREA },
    Kind { number: 113, ..OTHER }, Kind { number: 114, ..APPLET }, Kind { number: 115, ..OTHER }, Kind { number: 116, ..OTHER },
    Kind { number: 117, ..OTHER }, Kind { number: 118, ..APPLET }, Kind { number: 119, ..OTHER }, Kind { number: 120, ..LEGEND },
    Kind { number: 121, ..DD }, Kind { number: 122, ..OTHER }, Kind { number: 123, ..OTHER }, Kind { number: 124, ..AREA },
    Kind { number: 125, ..APPLET }, Kind { number: 126, ..OTHER }, Kind { number: 127, ..ADDRESS }, Kind { number: 128, ..OTHER },
    Kind { number: 129, ..OTHER }, Kind { number: 130, ..OTHER }, Kind { number: 131, ..APPLET }, Kind { number: 132, ..OTHER },
    Kind { number: 133, ..APPLET }, Kind { number: 134, ..ADDRESS }, Kind { number: 135, ..APPLET }, Kind { number: 136, ..AREA },
    Kind { number: 137, ..OTHER }, Kind { number: 138, ..OTHER }, Kind { number: 139, ..OTHER }, Kind { number: 140, ..OTHER },
    Kind { number: 141, ..OTHER }, Kind { number: 142, ..ADDRESS }, Kind { number: 143, ..A }, Kind { number: 144, ..APPLET },
    Kind { number: 145, ..APPLET }, Kind { number: 146, ..OTHER }, Kind { number: 147, ..OTHER }, Kind { number: 148, ..OTHER },
    Kind { number: 149, ..OBJECT }, Kind { number: 150, ..ADDRESS }, Kind { number: 151, ..OTHER },
    Kind { number: 152, ..OPTGROUP }, Kind { number: 153, ..OPTGROUP }, Kind { number: 154, ..OTHER }, Kind { number: 155, ..P },
    Kind { number: 156, ..AREA }, Kind { number: 157, ..OTHER }, Kind { number: 158, ..OTHER }, Kind { number: 159, ..OTHER },
    Kind { number: 160, ..APPLET }, Kind { number: 161, ..OTHER }, Kind { number: 162, ..OTHER }, Kind { number: 163, ..OTHER },
    Kind { number: 164, ..ADDRESS }, Kind { number: 165, ..OTHER }, Kind { number: 166, ..OTHER }, Kind { number: 167, ..OTHER },
    Kind { number: 168, ..APPLET }, Kind { number: 169, ..OTHER }, Kind { number: 170, ..OTHER }, Kind { number: 171, ..OTHER },
    Kind { number: 172, ..OTHER }, Kind { number: 173, ..RP }, Kind { number: 174, ..RP }, Kind { number: 175, ..APPLET },
    Kind { number: 176, ..OTHER }, Kind { number: 177, ..OTHER }, Kind { number: 178, ..OTHER }, Kind { number: 179, ..SCRIPT },
    Kind { number: 180, ..ADDRESS }, Kind { number: 181, ..ADDRESS }, Kind { number: 182, ..SELECT },
    Kind { number: 183, ..OTHER }, Kind { number: 184, ..OTHER }, Kind { number: 185, ..OTHER }, Kind { number: 186, ..OTHER },
    Kind { number: 187, ..AREA }, Kind { number: 188, ..OTHER }, Kind { number: 189, ..OTHER }, Kind { number: 190, ..OTHER },
    Kind { number: 191, ..OTHER }, Kind { number: 192, ..IFRAME }, Kind { number: 193, ..OTHER }, Kind { number: 194, ..ADDRESS },
    Kind { number: 195, ..OTHER }, Kind { number: 196, ..OTHER }, Kind { number: 197, ..OTHER }, Kind { number: 198, ..OTHER },
    Kind { number: 199, ..TABLE }, Kind { number: 200, ..TBODY }, Kind { number: 201, ..CAPTION }, Kind { number: 202, ..APPLET },
    Kind { number: 203, ..OTHER }, Kind { number: 204, ..TEXTAREA }, Kind { number: 205, ..OTHER }, Kind { number: 206, ..TBODY },
    Kind { number: 207, ..CAPTION }, Kind { number: 208, ..TBODY }, Kind { number: 209, ..OTHER }, Kind { number: 210, ..TITLE },
    Kind { number: 211, ..TBODY }, Kind { number: 212, ..AREA }, Kind { number: 213, ..OTHER }, Kind { number: 214, ..OTHER },
    Kind { number: 215, ..OTHER }, Kind { number: 216, ..ADDRESS }, Kind { number: 217, ..OTHER }, Kind { number: 218, ..OTHER },
    Kind { number: 219, ..OTHER }, Kind { number: 220, ..OTHER }, Kind { number: 221, ..AREA }, Kind { number: 222, ..APPLET },
];
