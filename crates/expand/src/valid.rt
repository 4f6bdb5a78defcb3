//! What a tree's meaning rests on: each relation of a view is defined once and has a level, and each tuple is admitted.
ghost use Rattle.std.specs.Prelude.{◌≡◌, true};
ghost use Rattle.meaning.specs.Reads.{IsValid};
ghost use Rattle.expand.specs.inside.Rising.{is_below, is_rising};

use config_text::Relation;
use rows::View;

/// Whether the view's relations are in order, each once. Those of each configuration are, as reading one promises; a view
/// does not say it of its own.
pub(crate) fn is_valid(view: &View) -> bool
    ensures { result ≡ true → IsValid view.now }
{
    let config = view.config();
    let _levels = config.levels();
    is_rising(config.relations())
}

fn is_rising(relations: &[Relation]) -> bool
    ensures { result ≡ is_rising relations.now }
{
    for i in 0..relations.len() {
        if !is_below(&relations[i], &relations[i + 1..]) {
            return false;
        }
    }
    true
}

fn is_below(relation: &Relation, others: &[Relation]) -> bool
    ensures { result ≡ is_below relation.now others.now }
{
    match others.first() {
        Some(next) => relation.name.cmp(&next.name).is_lt(),
        None => true,
    }
}
