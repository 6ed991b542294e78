//! Why no link and no name can break out of its place in the HTML of a menu. These functions have empty bodies; each
//! contract is a theorem.

ghost use Rattle.std.specs.Prelude.{◌≡◌, ◌↔◌, List, false, All};
ghost use Rattle.text_model.specs.Texts.{Text};
ghost use Rattle.text_model.specs.UriText.{IsUriText};
ghost use Rattle.menu.specs.Contained.{IsContained, IsTargetName, is_markup};
ghost use Rattle.menu.specs.Escaping.{IsReadAs, escaped};
ghost use Rattle.menu.specs.Links.{links};
ghost use Rattle.menu.specs.PageReading.{Token, IsReadAsTokens, HasSoundLinks, links_in, page_tokens};
ghost use Rattle.menu.specs.Printed.{html};
ghost use Rattle.menu.specs.Entries.{MenuEntry};

/// A link that is URI text, once it is escaped for the value of an attribute, cannot end the value and cannot begin a
/// tag: it has no quotation mark, no apostrophe, no `<` and no `>`, and each `&` in it is that of `&amp;` or of
/// `&#39;`.
pub fn written_links_are_contained()
    ensures { (link : Text) → IsUriText link → IsContained (escaped link) }
{}

/// A reader of HTML gets the same link from its escaped form, whatever its bytes.
pub fn written_links_are_read_back()
    ensures { (link read : Text) → IsReadAs (escaped link) read ↔ (read ≡ link) }
{}

/// The name of a target, which is written as it is, cannot begin a tag or a character reference: it has no
/// `<`, `>`, `&`, quotation mark or apostrophe.
pub fn names_need_no_escaping()
    ensures { (name : Text) → IsTargetName name → All (λ b. is_markup b ≡ false) name }
{}

/// How HTML's grammar reads a whole page. A page has at most one reading. If the links of a menu are URI text, and the
/// names are names of targets, its page is read as the fixed tags and texts with one item for each link, and in no
/// other way: the links in it are the links of the menu, in their order, each with the name of its target.
pub fn pages_are_read_as_their_links()
    ensures one { (page : Text) (tokens others : List Token) → IsReadAsTokens page tokens →
        IsReadAsTokens page others → tokens ≡ others }
    ensures page { (menu : List MenuEntry) (tokens : List Token) → HasSoundLinks menu →
        IsReadAsTokens (html menu) tokens ↔ (tokens ≡ page_tokens menu) }
    ensures links { (menu : List MenuEntry) (tokens : List Token) → HasSoundLinks menu →
        IsReadAsTokens (html menu) tokens → links_in tokens ≡ links menu }
{}
