//! The names of characters (HTML 4.01, section 24; those of XML 1.0, section 4.6, also in capital letters), by how many
//! letters they have.

ghost use Rattle.std.specs.Prelude.{◌≡◌};
ghost use Rattle.text_model.specs.Texts.{texts_of};
ghost use Rattle.title_markup.specs.Names as spec;

/// Names of two letters.
#[tactic(auto, unfolding(crate::specs::Names::names_of))]
pub(crate) fn names_of_two() -> &'static [&'static str]
    ensures { texts_of result.now ≡ spec.names_of 2 }
{
    &[
        "Mu", "Nu", "Xi", "Pi", "mu", "nu", "xi", "pi", "LT", "lt", "GT", "gt", "ni", "or", "ne",
        "le", "ge",
    ]
}

/// What these names denote, in their order.
#[tactic(auto, unfolding(crate::specs::Names::characters_of))]
pub(crate) fn characters_of_two() -> &'static [char]
    ensures { result.now ≡ spec.characters_of 2 }
{
    &[
        'Μ', 'Ν', 'Ξ', 'Π', 'μ', 'ν', 'ξ', 'π', '<', '<', '>', '>', '∋', '∨', '≠', '≤', '≥',
    ]
}

/// Names of three letters.
#[tactic(auto, unfolding(crate::specs::Names::names_of))]
pub(crate) fn names_of_three() -> &'static [&'static str]
    ensures { texts_of result.now ≡ spec.names_of 3 }
{
    &[
        "yen", "uml", "not", "shy", "reg", "deg", "ETH", "eth", "Eta", "Rho", "Tau", "Phi", "Chi",
        "Psi", "eta", "rho", "tau", "phi", "chi", "psi", "piv", "AMP", "amp", "zwj", "lrm", "rlm",
        "sum", "ang", "and", "cap", "cup", "int", "sim", "sub", "sup", "loz",
    ]
}

/// What these names denote, in their order.
#[tactic(auto, unfolding(crate::specs::Names::characters_of))]
pub(crate) fn characters_of_three() -> &'static [char]
    ensures { result.now ≡ spec.characters_of 3 }
{
    &[
        '¥', '¨', '¬', '\u{ad}', '®', '°', 'Ð', 'ð', 'Η', 'Ρ', 'Τ', 'Φ', 'Χ', 'Ψ', 'η', 'ρ', 'τ',
        'φ', 'χ', 'ψ', 'ϖ', '&', '&', '\u{200d}', '\u{200e}', '\u{200f}', '∑', '∠', '∧', '∩', '∪',
        '∫', '∼', '⊂', '⊃', '◊',
    ]
}

/// Names of four letters.
#[tactic(auto, unfolding(crate::specs::Names::names_of))]
pub(crate) fn names_of_four() -> &'static [&'static str]
    ensures { texts_of result.now ≡ spec.names_of 4 }
{
    &[
        "nbsp", "cent", "sect", "copy", "ordf", "macr", "sup2", "sup3", "para", "sup1", "ordm",
        "Auml", "Euml", "Iuml", "Ouml", "Uuml", "auml", "euml", "iuml", "ouml", "uuml", "yuml",
        "Beta", "Zeta", "Iota", "beta", "zeta", "iota", "QUOT", "quot", "apos", "Yuml", "fnof",
        "circ", "ensp", "emsp", "zwnj", "bull", "euro", "real", "larr", "uarr", "rarr", "darr",
        "harr", "lArr", "uArr", "rArr", "dArr", "hArr", "part", "isin", "prod", "prop", "cong",
        "nsub", "sube", "supe", "perp", "sdot", "lang", "rang",
    ]
}

/// What these names denote, in their order.
#[tactic(auto, unfolding(crate::specs::Names::characters_of))]
pub(crate) fn characters_of_four() -> &'static [char]
    ensures { result.now ≡ spec.characters_of 4 }
{
    &[
        '\u{a0}', '¢', '§', '©', 'ª', '¯', '²', '³', '¶', '¹', 'º', 'Ä', 'Ë', 'Ï', 'Ö', 'Ü', 'ä',
        'ë', 'ï', 'ö', 'ü', 'ÿ', 'Β', 'Ζ', 'Ι', 'β', 'ζ', 'ι', '"', '"', '\'', 'Ÿ', 'ƒ', 'ˆ',
        '\u{2002}', '\u{2003}', '\u{200c}', '•', '€', 'ℜ', '←', '↑', '→', '↓', '↔', '⇐', '⇑', '⇒',
        '⇓', '⇔', '∂', '∈', '∏', '∝', '≅', '⊄', '⊆', '⊇', '⊥', '⋅', '〈', '〉',
    ]
}

/// Names of five letters.
#[tactic(auto, unfolding(crate::specs::Names::names_of))]
pub(crate) fn names_of_five() -> &'static [&'static str]
    ensures { texts_of result.now ≡ spec.names_of 5 }
{
    &[
        "iexcl", "pound", "laquo", "acute", "micro", "cedil", "raquo", "Acirc", "Aring", "AElig",
        "Ecirc", "Icirc", "Ocirc", "times", "Ucirc", "THORN", "szlig", "acirc", "aring", "aelig",
        "ecirc", "icirc", "ocirc", "ucirc", "thorn", "Alpha", "Gamma", "Delta", "Theta", "Kappa",
        "Sigma", "Omega", "alpha", "gamma", "delta", "theta", "kappa", "sigma", "omega", "upsih",
        "OElig", "oelig", "tilde", "ndash", "mdash", "lsquo", "rsquo", "sbquo", "ldquo", "rdquo",
        "bdquo", "prime", "Prime", "oline", "frasl", "image", "trade", "crarr", "exist", "empty",
        "nabla", "notin", "minus", "radic", "infin", "asymp", "equiv", "oplus", "lceil", "rceil",
        "clubs", "diams",
    ]
}

/// What these names denote, in their order.
#[tactic(auto, unfolding(crate::specs::Names::characters_of))]
pub(crate) fn characters_of_five() -> &'static [char]
    ensures { result.now ≡ spec.characters_of 5 }
{
    &[
        '¡', '£', '«', '´', 'µ', '¸', '»', 'Â', 'Å', 'Æ', 'Ê', 'Î', 'Ô', '×', 'Û', 'Þ', 'ß', 'â',
        'å', 'æ', 'ê', 'î', 'ô', 'û', 'þ', 'Α', 'Γ', 'Δ', 'Θ', 'Κ', 'Σ', 'Ω', 'α', 'γ', 'δ', 'θ',
        'κ', 'σ', 'ω', 'ϒ', 'Œ', 'œ', '˜', '–', '—', '‘', '’', '‚', '“', '”', '„', '′', '″', '‾',
        '⁄', 'ℑ', '™', '↵', '∃', '∅', '∇', '∉', '−', '√', '∞', '≈', '≡', '⊕', '⌈', '⌉', '♣', '♦',
    ]
}

/// Names of six letters and more.
#[tactic(auto, unfolding(crate::specs::Names::names_of))]
pub(crate) fn names_of_six() -> &'static [&'static str]
    ensures { texts_of result.now ≡ spec.names_of 6 }
{
    &[
        "curren", "brvbar", "plusmn", "middot", "frac14", "frac12", "frac34", "iquest", "Agrave",
        "Aacute", "Atilde", "Ccedil", "Egrave", "Eacute", "Igrave", "Iacute", "Ntilde", "Ograve",
        "Oacute", "Otilde", "Oslash", "Ugrave", "Uacute", "Yacute", "agrave", "aacute", "atilde",
        "ccedil", "egrave", "eacute", "igrave", "iacute", "ntilde", "ograve", "oacute", "otilde",
        "divide", "oslash", "ugrave", "uacute", "yacute", "Epsilon", "Lambda", "Omicron",
        "Upsilon", "epsilon", "lambda", "omicron", "sigmaf", "upsilon", "thetasym", "Scaron",
        "scaron", "thinsp", "dagger", "Dagger", "hellip", "permil", "lsaquo", "rsaquo", "weierp",
        "alefsym", "forall", "lowast", "there4", "otimes", "lfloor", "rfloor", "spades", "hearts",
    ]
}

/// What these names denote, in their order.
#[tactic(auto, unfolding(crate::specs::Names::characters_of))]
pub(crate) fn characters_of_six() -> &'static [char]
    ensures { result.now ≡ spec.characters_of 6 }
{
    &[
        '¤', '¦', '±', '·', '¼', '½', '¾', '¿', 'À', 'Á', 'Ã', 'Ç', 'È', 'É', 'Ì', 'Í', 'Ñ', 'Ò',
        'Ó', 'Õ', 'Ø', 'Ù', 'Ú', 'Ý', 'à', 'á', 'ã', 'ç', 'è', 'é', 'ì', 'í', 'ñ', 'ò', 'ó', 'õ',
        '÷', 'ø', 'ù', 'ú', 'ý', 'Ε', 'Λ', 'Ο', 'Υ', 'ε', 'λ', 'ο', 'ς', 'υ', 'ϑ', 'Š', 'š',
        '\u{2009}', '†', '‡', '…', '‰', '‹', '›', '℘', 'ℵ', '∀', '∗', '∴', '⊗', '⌊', '⌋', '♠', '♥',
    ]
}
