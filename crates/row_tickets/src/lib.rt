// Document 02, M-101: the tickets of the new row, each leaf's cutoff the next one's separator. A leaf's ticket has no cutoff until the next leaf is known: the leaf behind it may vanish,
// and bytes behind the last ticket keep what they held.
#![tactic(auto)]

ghost use Rattle.std.specs.Prelude.{◌≡◌, map, ◌+◌, ◌*◌, ◌≤◌, length, take, drop};
ghost use Rattle.leaf_node.specs.Ticket.{length_read};
ghost use Rattle.row_tickets.specs.Linked.{linked, separator_at, linked_all, last_linked, separators_read};

use bit_ops::bytes_from;
use leaf_write::put_ticket;

// How long the ticket at byte `at` is.
fn ticket_len(bytes: &[u8], at: usize) -> usize
    requires { at + 32 ≤ length bytes.now }
    ensures { (result ≡ length_read (drop at bytes.now)) × (result ≤ 65) }
{
    if bytes[at] == 1 { 65 } else { 33 }
}

// Leaf n of the new row, behind one whose separator is `last`. Answers its separator: the first leaf's is zeros.
pub fn link(tickets: &mut [u8], n: usize, last: &[u8; 32], separator: &[u8; 32]) -> [u8; 32]
    requires { 65 * n + 65 ≤ length tickets.old }
    ensures { (tickets.new ≡ linked n last.now separator.now tickets.old) × (result ≡ separator_at n separator.now) }
{
    if n == 0 {
        let zeros = [0u8; 32];
        put_ticket(tickets, 0, &zeros, None);
        return zeros;
    }
    put_ticket(tickets, 65 * n - 65, last, Some(separator));
    put_ticket(tickets, 65 * n, separator, None);
    *separator
}

// A digest's leaves, from leaf n on: `own` has the tickets that the digest gave. Answers the last one's separator.
pub fn link_leaves(
    tickets: &mut [u8],
    n: usize,
    last: &[u8; 32],
    own: &[u8],
    count: usize,
) -> [u8; 32]
    requires { (65 * (n + count) ≤ length tickets.old) × (65 * count ≤ length own.now) }
    ensures { (tickets.new ≡ linked_all n last.now (separators_read count own.now) tickets.old) × (result ≡ last_linked n last.now (separators_read count own.now)) }
{
    let mut key = *last;
    let mut at = 0;
    for i in 0..count {
        let separator = bytes_from(own, at + 1);
        key = link(tickets, n + i, &key, separator);
        at += ticket_len(own, at);
    }
    key
}
