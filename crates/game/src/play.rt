// Who can force the win, by two functions that call each other: Winder's choice is judged by Blocker's best reply, and the reverse. One
// edge less is free at each call, so that no more than ten are under way inside the first.
ghost use Rattle.std.specs.Prelude.{◌≡◌};
ghost use Rattle.model.specs.Game.{forced_by};
ghost use Rattle.game.specs.Searching.{Searchable, wind_from, block_from};

use crate::masks::Masks;
use board::masks::{alone, has};
use model::answers::{Forced, Player};
use model::limits::GAME_SETS;
use model::numbers::Edge;

// Says whether a player can force the win.
fn can_force(player: Player, forced: Forced) -> bool
    ensures { result ≡ forced_by player forced }
{
    match forced {
        Forced::Taking(winner, _) | Forced::Waiting(winner) => player == winner,
    }
}

// Winder is to move.
#[cycle(block_wind)]
pub(crate) fn wind(loops: &[u8; GAME_SETS], edges: usize, masks: Masks) -> Forced
    requires { Searchable loops.now edges masks.held masks.free masks.left }
    ensures { result ≡ wind_from masks.left loops.now edges masks.held masks.free }
{
    let held = masks.held;
    let free = masks.free;
    if loops[held] == 1 {
        return Forced::Waiting(Player::Winder);
    }
    if masks.left == 0 {
        return Forced::Waiting(Player::Blocker);
    }
    let left = masks.left - 1;
    for e in 0..edges {
        if has(free, e) {
            let edge = alone(e);
            let more = held + edge;
            let rest = free - edge;
            let next = Masks {
                held: more,
                free: rest,
                left,
            };
            if can_force(Player::Winder, block(loops, edges, next)) {
                return Forced::Taking(Player::Winder, Edge(e as u16));
            }
        }
    }
    Forced::Waiting(Player::Blocker)
}

// Blocker is to move.
#[cycle(block_wind)]
pub(crate) fn block(loops: &[u8; GAME_SETS], edges: usize, masks: Masks) -> Forced
    requires { Searchable loops.now edges masks.held masks.free masks.left }
    ensures { result ≡ block_from masks.left loops.now edges masks.held masks.free }
{
    let hers = masks.held;
    let free = masks.free;
    if loops[hers] == 1 {
        return Forced::Waiting(Player::Winder);
    }
    if masks.left == 0 {
        return Forced::Waiting(Player::Blocker);
    }
    let left = masks.left - 1;
    for e in 0..edges {
        if has(free, e) {
            let edge = alone(e);
            let rest = free - edge;
            let next = Masks {
                held: hers,
                free: rest,
                left,
            };
            if can_force(Player::Blocker, wind(loops, edges, next)) {
                return Forced::Taking(Player::Blocker, Edge(e as u16));
            }
        }
    }
    Forced::Waiting(Player::Winder)
}
