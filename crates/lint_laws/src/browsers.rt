//! What browsers make of a link's host.

ghost use Rattle.std.specs.Prelude.{◌≡◌, true};
ghost use Rattle.text_model.specs.Texts.{Text};
ghost use Rattle.text_model.specs.UriText.{IsUriText};
ghost use Rattle.menu.specs.WebLink.{is_web_link};
ghost use Rattle.rule_lint.specs.Host.{host_of};
ghost use Rattle.lint_laws.specs.Browsers.{browsers_host};
ghost use Rattle.lint_laws.specs.RowLinks.{IsPlainHost};

/// If the host of a web link is not empty and has no `@`, a browser has the same host, whose triplets it then decodes.
/// Every link of a menu is URI text, which has no `\`.
pub fn browsers_have_plain_hosts()
    ensures { (link : Text) → IsUriText link → is_web_link link ≡ true → IsPlainHost (host_of link)
        → browsers_host link ≡ host_of link }
{}
