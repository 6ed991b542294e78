//! Laws of replies. These functions have empty bodies, apart from the laws that they use; each contract is a theorem.

ghost use Rattle.std.specs.Prelude.{◌≡◌, ◌++◌, [], ℕ, List, All};
ghost use Rattle.kev_read.specs.Pairs.{KeyValue, pairs_of};
ghost use Rattle.menu_source.specs.Menus.{Menus};
ghost use Rattle.source_requests.specs.Requests.{IsUtf8Pair, any_pairs, fitting, reading_of_source, written};
ghost use Rattle.source_menus.specs.Found.{Any, Own, first_of_each, links_in};
ghost use Rattle.http_request.specs.Routes.{Links, RouteValue};
ghost use Rattle.http_exchange.specs.Replies.{ReplyValue};
ghost use Rattle.http_exchange.specs.RouteReplies.{IsReplyTo, json_reply, found_with};

use source_requests::laws::written_pairs_are_read_back;

/// A reply follows from the menus: if two sources have the same menu for all pairs, what is a reply of one to a route
/// is one of the other.
pub fn replies_follow_menus()
    ensures { (menus others : Menus) (route : RouteValue) (reply : ReplyValue)
        → ((pairs : List KeyValue) → menus pairs ≡ others pairs)
        → IsReplyTo menus route reply → IsReplyTo others route reply }
{}

/// The links of `/menu.json` are those of the menus of `/openurl`: for the reading of its query, written as a query,
/// and for that with `rft.issn=ANY`, by which targets that answer every request are found. Each target has the first of
/// its links, those of the reading before the others. The pairs are UTF-8, as texts of Rust are.
pub fn links_are_those_of_menus()
    ensures { (menus : Menus) (query : List ℕ) (reply : ReplyValue) (own any : List KeyValue)
        → own ≡ fitting (reading_of_source query).pairs → any ≡ fitting (any_pairs (reading_of_source query).pairs)
        → All IsUtf8Pair own → All IsUtf8Pair any → IsReplyTo menus (Links [] query) reply
        → reply ≡ json_reply query (found_with query (first_of_each
        (links_in Own (menus (pairs_of (written own))) ++ links_in Any (menus (pairs_of (written any)))))) }
{
    written_pairs_are_read_back();
}
