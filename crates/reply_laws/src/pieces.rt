//! Why the pieces in which a request arrives do not matter.

ghost use Rattle.std.specs.Prelude.{◌≡◌, ◌≢◌, ℕ, List, []};
ghost use Rattle.menu_source.specs.Menus.{Menus};
ghost use Rattle.http_exchange.specs.Replies.{unavailable};
ghost use Rattle.reply_laws.specs.Peers.{EndAlike, Gets, GetsNothing, IsReadOf};

use http_request::laws::{
    a_head_ends_where_it_is_closed, one_route, what_follows_a_head_is_ignored,
};

/// Two peers that send the same bytes, each cut into pieces in any way, are read to the same place, and get the same
/// reply. Only a peer that sends nothing gets nothing.
///
/// What can differ is left aside: a read or a write that fails, a reply 503 because memory ran out, and how many bytes
/// after the head are read with its last piece. The law is false if these bytes count.
pub fn pieces_do_not_matter()
    ensures place { (sent bytes others : List ℕ) → IsReadOf sent bytes → IsReadOf sent others
        → EndAlike bytes others }
    ensures reply { (menus : Menus) (sent : List ℕ) (status other : ℕ) (reply another : List ℕ)
        → Gets menus sent status reply → Gets menus sent other another
        → status ≢ unavailable.status → other ≢ unavailable.status
        → (status ≡ other) × (reply ≡ another) }
    ensures nothing { (menus : Menus) (sent : List ℕ) → GetsNothing menus sent → sent ≡ [] }
    ensures something { (menus : Menus) (status : ℕ) (reply : List ℕ) → Gets menus [] status reply
        → status ≡ unavailable.status }
{
    one_route();
    what_follows_a_head_is_ignored();
    a_head_ends_where_it_is_closed();
}
