//! Which tuples name a user of a group.
ghost use Rattle.std.specs.Prelude.{◌↔◌, IsTrue};
ghost use Rattle.direct.specs.Named.{IsDirect};

use config::Config;
use leopard::is_group;
use names::Tuple;

/// Whether a group names a user by the tuple, and no userset.
pub(crate) fn is_direct(config: &Config, tuple: &Tuple) -> bool
    ensures { IsTrue result ↔ IsDirect config.now tuple.now }
{
    tuple.subject.relation.is_none() && is_group(config, &tuple.node)
}
