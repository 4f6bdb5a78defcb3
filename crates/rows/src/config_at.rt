//! Configurations with their revisions.
ghost use Rattle.std.specs.Prelude.{◌≡◌, ◌≤◌, ◌++◌, ◌∷◌, [], ◌-◌, length, take, drop, OnOk, OnErr};
ghost use Rattle.rows.specs.Representation.{config_from, config_after_settle, EndsAt, configs_above};

use config::Config;
use std::alloc::AllocError;
use std::mem::swap;

/// The configuration of a commit, and the commit's revision.
#[derive(Debug, Drop)]
pub(crate) struct ConfigAt {
    pub(crate) rev: u64,
    pub(crate) config: Config,
}

/// The last configuration up to a revision.
pub(crate) fn config_up_to<'a>(base: &'a Config, configs: &'a [ConfigAt], rev: u64) -> &'a Config
    ensures { result.now ≡ config_from base.now configs.now rev }
{
    let mut left = configs.len();
    while left > 0 {
        left -= 1;
        let config_at = &configs[left];
        if config_at.rev <= rev {
            return &config_at.config;
        }
    }
    base
}

pub(crate) fn push_config(
    configs: &mut Vec<ConfigAt>,
    config_at: ConfigAt,
) -> Result<(), AllocError>
    ensures ok { OnOk result (configs.new.items ≡ configs.old.items ++ config_at ∷ []) }
    ensures err { OnErr result (configs.new.items ≡ configs.old.items) }
{
    configs.push(config_at)?;
    Ok(())
}

pub(crate) fn drop_config(configs: &mut Vec<ConfigAt>)
    ensures { configs.new.items ≡ take (length configs.old.items - 1) configs.old.items }
{
    let _ = configs.pop();
}

/// Takes the first configurations, up to a revision, into what the floor holds.
pub(crate) fn settle_configs(config: &mut Config, configs: &mut Vec<ConfigAt>, rev: u64)
    ensures config { config.new ≡ config_after_settle config.old configs.old.items rev }
    ensures configs { configs.new.items ≡ configs_above rev configs.old.items }
{
    let count = count_up_to(configs, rev);
    if count > 0 {
        let last = &mut configs[count - 1];
        swap(config, &mut last.config);
        drop_configs(configs, count);
    }
}

/// How many of the first configurations are up to a revision.
fn count_up_to(configs: &[ConfigAt], rev: u64) -> usize
    ensures within { result ≤ length configs.now }
    ensures config { EndsAt configs.now rev result }
    ensures above { configs_above rev configs.now ≡ drop result configs.now }
{
    for i in 0..configs.len() {
        if configs[i].rev > rev {
            return i;
        }
    }
    configs.len()
}

/// Drops the first configurations.
fn drop_configs(configs: &mut Vec<ConfigAt>, count: usize)
    requires { count ≤ length configs.old.items }
    ensures { configs.new.items ≡ drop count configs.old.items }
{
    let left = configs.as_slice().len() - count;
    configs.rotate_left(count);
    configs.truncate(left);
}
