//! The letters of LaTeX (LaTeX2e: An unofficial reference manual, sections "Accents" and "Additional Latin letters").

ghost use Rattle.std.specs.Prelude.{◌≡◌};
ghost use Rattle.text_model.specs.Texts.{texts_of};
ghost use Rattle.latex_text.specs.Letters as spec;

/// Letters with the accents whose commands are signs.
#[tactic(auto, unfolding(crate::specs::Letters::sign_accents_names))]
pub(crate) fn sign_accents_names() -> &'static [&'static str]
    ensures { texts_of result.now ≡ spec.sign_accents_names }
{
    &[
        "\"a", "\"e", "\"h", "\"i", "\"o", "\"t", "\"u", "\"w", "\"x", "\"y", "\"A", "\"E", "\"H",
        "\"I", "\"O", "\"U", "\"W", "\"X", "\"Y", "'a", "'c", "'e", "'g", "'i", "'k", "'l", "'m",
        "'n", "'o", "'p", "'r", "'s", "'u", "'w", "'y", "'z", "'A", "'C", "'E", "'G", "'I", "'K",
        "'L", "'M", "'N", "'O", "'P", "'R", "'S", "'U", "'W", "'Y", "'Z", "`a", "`e", "`i", "`n",
        "`o", "`u", "`w", "`y", "`A", "`E", "`I", "`N", "`O", "`U", "`W", "`Y", "^a", "^c", "^e",
        "^g", "^h", "^i", "^j", "^o", "^s", "^u", "^w", "^y", "^z", "^A", "^C", "^E", "^G", "^H",
        "^I", "^J", "^O", "^S", "^U", "^W", "^Y", "^Z", "~a", "~e", "~i", "~n", "~o", "~u", "~v",
        "~y", "~A", "~E", "~I", "~N", "~O", "~U", "~V", "~Y", "=a", "=e", "=g", "=i", "=o", "=u",
        "=y", "=A", "=E", "=G", "=I", "=O", "=U", "=Y", ".a", ".b", ".c", ".d", ".e", ".f", ".g",
        ".h", ".m", ".n", ".o", ".p", ".r", ".s", ".t", ".w", ".x", ".y", ".z", ".A", ".B", ".C",
        ".D", ".E", ".F", ".G", ".H", ".I", ".M", ".N", ".O", ".P", ".R", ".S", ".T", ".W", ".X",
        ".Y", ".Z",
    ]
}

/// What these denote, in their order.
#[tactic(auto, unfolding(crate::specs::Letters::sign_accents_characters))]
pub(crate) fn sign_accents_characters() -> &'static [char]
    ensures { result.now ≡ spec.sign_accents_characters }
{
    &[
        'ä', 'ë', 'ḧ', 'ï', 'ö', 'ẗ', 'ü', 'ẅ', 'ẍ', 'ÿ', 'Ä', 'Ë', 'Ḧ', 'Ï', 'Ö', 'Ü', 'Ẅ', 'Ẍ',
        'Ÿ', 'á', 'ć', 'é', 'ǵ', 'í', 'ḱ', 'ĺ', 'ḿ', 'ń', 'ó', 'ṕ', 'ŕ', 'ś', 'ú', 'ẃ', 'ý', 'ź',
        'Á', 'Ć', 'É', 'Ǵ', 'Í', 'Ḱ', 'Ĺ', 'Ḿ', 'Ń', 'Ó', 'Ṕ', 'Ŕ', 'Ś', 'Ú', 'Ẃ', 'Ý', 'Ź', 'à',
        'è', 'ì', 'ǹ', 'ò', 'ù', 'ẁ', 'ỳ', 'À', 'È', 'Ì', 'Ǹ', 'Ò', 'Ù', 'Ẁ', 'Ỳ', 'â', 'ĉ', 'ê',
        'ĝ', 'ĥ', 'î', 'ĵ', 'ô', 'ŝ', 'û', 'ŵ', 'ŷ', 'ẑ', 'Â', 'Ĉ', 'Ê', 'Ĝ', 'Ĥ', 'Î', 'Ĵ', 'Ô',
        'Ŝ', 'Û', 'Ŵ', 'Ŷ', 'Ẑ', 'ã', 'ẽ', 'ĩ', 'ñ', 'õ', 'ũ', 'ṽ', 'ỹ', 'Ã', 'Ẽ', 'Ĩ', 'Ñ', 'Õ',
        'Ũ', 'Ṽ', 'Ỹ', 'ā', 'ē', 'ḡ', 'ī', 'ō', 'ū', 'ȳ', 'Ā', 'Ē', 'Ḡ', 'Ī', 'Ō', 'Ū', 'Ȳ', 'ȧ',
        'ḃ', 'ċ', 'ḋ', 'ė', 'ḟ', 'ġ', 'ḣ', 'ṁ', 'ṅ', 'ȯ', 'ṗ', 'ṙ', 'ṡ', 'ṫ', 'ẇ', 'ẋ', 'ẏ', 'ż',
        'Ȧ', 'Ḃ', 'Ċ', 'Ḋ', 'Ė', 'Ḟ', 'Ġ', 'Ḣ', 'İ', 'Ṁ', 'Ṅ', 'Ȯ', 'Ṗ', 'Ṙ', 'Ṡ', 'Ṫ', 'Ẇ', 'Ẋ',
        'Ẏ', 'Ż',
    ]
}

/// Letters with the accents whose commands are letters.
#[tactic(auto, unfolding(crate::specs::Letters::letter_accents_names))]
pub(crate) fn letter_accents_names() -> &'static [&'static str]
    ensures { texts_of result.now ≡ spec.letter_accents_names }
{
    &[
        "cc", "cd", "ce", "cg", "ch", "ck", "cl", "cn", "cr", "cs", "ct", "cC", "cD", "cE", "cG",
        "cH", "cK", "cL", "cN", "cR", "cS", "cT", "va", "vc", "vd", "ve", "vg", "vh", "vi", "vj",
        "vk", "vl", "vn", "vo", "vr", "vs", "vt", "vu", "vz", "vA", "vC", "vD", "vE", "vG", "vH",
        "vI", "vK", "vL", "vN", "vO", "vR", "vS", "vT", "vU", "vZ", "ua", "ue", "ug", "ui", "uo",
        "uu", "uA", "uE", "uG", "uI", "uO", "uU", "Ho", "Hu", "HO", "HU", "ka", "ke", "ki", "ko",
        "ku", "kA", "kE", "kI", "kO", "kU", "ra", "ru", "rw", "ry", "rA", "rU", "da", "db", "dd",
        "de", "dh", "di", "dk", "dl", "dm", "dn", "do", "dr", "ds", "dt", "du", "dv", "dw", "dy",
        "dz", "dA", "dB", "dD", "dE", "dH", "dI", "dK", "dL", "dM", "dN", "dO", "dR", "dS", "dT",
        "dU", "dV", "dW", "dY", "dZ", "bb", "bd", "bh", "bk", "bl", "bn", "br", "bt", "bz", "bB",
        "bD", "bK", "bL", "bN", "bR", "bT", "bZ",
    ]
}

/// What these denote, in their order.
#[tactic(auto, unfolding(crate::specs::Letters::letter_accents_characters))]
pub(crate) fn letter_accents_characters() -> &'static [char]
    ensures { result.now ≡ spec.letter_accents_characters }
{
    &[
        'ç', 'ḑ', 'ȩ', 'ģ', 'ḩ', 'ķ', 'ļ', 'ņ', 'ŗ', 'ş', 'ţ', 'Ç', 'Ḑ', 'Ȩ', 'Ģ', 'Ḩ', 'Ķ', 'Ļ',
        'Ņ', 'Ŗ', 'Ş', 'Ţ', 'ǎ', 'č', 'ď', 'ě', 'ǧ', 'ȟ', 'ǐ', 'ǰ', 'ǩ', 'ľ', 'ň', 'ǒ', 'ř', 'š',
        'ť', 'ǔ', 'ž', 'Ǎ', 'Č', 'Ď', 'Ě', 'Ǧ', 'Ȟ', 'Ǐ', 'Ǩ', 'Ľ', 'Ň', 'Ǒ', 'Ř', 'Š', 'Ť', 'Ǔ',
        'Ž', 'ă', 'ĕ', 'ğ', 'ĭ', 'ŏ', 'ŭ', 'Ă', 'Ĕ', 'Ğ', 'Ĭ', 'Ŏ', 'Ŭ', 'ő', 'ű', 'Ő', 'Ű', 'ą',
        'ę', 'į', 'ǫ', 'ų', 'Ą', 'Ę', 'Į', 'Ǫ', 'Ų', 'å', 'ů', 'ẘ', 'ẙ', 'Å', 'Ů', 'ạ', 'ḅ', 'ḍ',
        'ẹ', 'ḥ', 'ị', 'ḳ', 'ḷ', 'ṃ', 'ṇ', 'ọ', 'ṛ', 'ṣ', 'ṭ', 'ụ', 'ṿ', 'ẉ', 'ỵ', 'ẓ', 'Ạ', 'Ḅ',
        'Ḍ', 'Ẹ', 'Ḥ', 'Ị', 'Ḳ', 'Ḷ', 'Ṃ', 'Ṇ', 'Ọ', 'Ṛ', 'Ṣ', 'Ṭ', 'Ụ', 'Ṿ', 'Ẉ', 'Ỵ', 'Ẓ', 'ḇ',
        'ḏ', 'ẖ', 'ḵ', 'ḻ', 'ṉ', 'ṟ', 'ṯ', 'ẕ', 'Ḇ', 'Ḏ', 'Ḵ', 'Ḻ', 'Ṉ', 'Ṟ', 'Ṯ', 'Ẕ',
    ]
}

/// Letters that are no letters of ASCII with an accent.
#[tactic(auto, unfolding(crate::specs::Letters::letters_names))]
pub(crate) fn letters_names() -> &'static [&'static str]
    ensures { texts_of result.now ≡ spec.letters_names }
{
    &[
        "ss", "SS", "o", "O", "l", "L", "ae", "AE", "oe", "OE", "aa", "AA", "i", "j", "dh", "DH",
        "th", "TH", "dj", "DJ", "ng", "NG",
    ]
}

/// What these denote, in their order.
#[tactic(auto, unfolding(crate::specs::Letters::letters_characters))]
pub(crate) fn letters_characters() -> &'static [char]
    ensures { result.now ≡ spec.letters_characters }
{
    &[
        'ß', 'ẞ', 'ø', 'Ø', 'ł', 'Ł', 'æ', 'Æ', 'œ', 'Œ', 'å', 'Å', 'ı', 'ȷ', 'ð', 'Ð', 'þ', 'Þ',
        'đ', 'Đ', 'ŋ', 'Ŋ',
    ]
}
