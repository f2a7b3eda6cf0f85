//! The names that have a number of their own. Written by `tables/element_names.py`.

/// How many numbers there are.
pub(crate) const NAME_COUNT: usize = 223;

/// Each name at its number; 0 is any other name.
#[rattlefmt::skip]
pub(crate) static NAMES: [&str; NAME_COUNT] = [
    "", "a", "abbr", "address", "allowfullscreen", "animate", "animatemotion", "animatetransform", "applet", "area", "article",
    "aside", "async", "audio", "autofocus", "autoplay", "b", "base", "basefont", "bdi", "bdo", "bgsound", "big", "blockquote",
    "body", "br", "button", "canvas", "caption", "center", "checked", "circle", "cite", "class", "clippath", "code", "col",
    "colgroup", "command", "controls", "data", "datalist", "dd", "default", "defer", "defs", "del", "desc", "details", "dfn",
    "dialog", "dir", "disabled", "div", "dl", "dt", "ellipse", "em", "embed", "feblend", "fecolormatrix", "fecomponenttransfer",
    "fecomposite", "feconvolvematrix", "fediffuselighting", "fedisplacementmap", "fedistantlight", "fedropshadow", "feflood",
    "fefunca", "fefuncb", "fefuncg", "fefuncr", "fegaussianblur", "feimage", "femerge", "femergenode", "femorphology", "feoffset",
    "fepointlight", "fespecularlighting", "fespotlight", "fetile", "feturbulence", "fieldset", "figcaption", "figure", "filter",
    "font", "footer", "form", "formnovalidate", "frame", "frameset", "g", "h1", "h2", "h3", "h4", "h5", "h6", "head", "header",
    "hgroup", "hr", "html", "i", "id", "iframe", "image", "img", "inert", "input", "ins", "isindex", "ismap", "itemscope", "kbd",
    "keygen", "label", "legend", "li", "line", "lineargradient", "link", "listing", "loop", "main", "map", "mark", "marker",
    "marquee", "mask", "math", "menu", "menuitem", "meta", "metadata", "meter", "mpath", "multiple", "muted", "nav", "nobr",
    "noembed", "noframes", "nomodule", "noscript", "novalidate", "object", "ol", "open", "optgroup", "option", "output", "p",
    "param", "path", "pattern", "picture", "plaintext", "playsinline", "polygon", "polyline", "pre", "progress", "q",
    "radialgradient", "rb", "readonly", "rect", "required", "reversed", "rp", "rt", "rtc", "ruby", "s", "samp", "script",
    "search", "section", "select", "selected", "set", "slot", "small", "source", "span", "stop", "strike", "strong", "style",
    "sub", "summary", "sup", "svg", "switch", "symbol", "table", "tbody", "td", "template", "text", "textarea", "textpath",
    "tfoot", "th", "thead", "time", "title", "tr", "track", "tspan", "tt", "u", "ul", "use", "var", "video", "view", "wbr", "xmp",
];
