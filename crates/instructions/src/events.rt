// What an instruction that ends does to the core. Names and pairs have done their work before: the crate shapes.
ghost use Rattle.std.specs.Prelude.{◌≡◌};
ghost use Rattle.reader.specs.Sizes.{Small};
ghost use Rattle.hpgl.specs.Rules as R;
ghost use Rattle.hpgl.specs.Valid.{ValidCore};

use hpgl::{Acted, Action, Core};
use mnemonics::{AA, AR, CI, DF, EA, EP, ER, IN, IP, IW, OA, OE, OH, OP, OW, PM, RO, SC, SP};
use reader::Numbers;
use replies::telling::{oa_rule, oe_rule, oh_rule, op_rule, ow_rule};
use rulekit::acts::done;
use settings::{df_rule, in_rule, ip_rule, iw_rule, ro_rule, sc_rule, sp_rule};
use shapes::arcs::{aa_rule, ar_rule};
use shapes::circles::ci_rule;
use shapes::polygons::{ea_rule, ep_rule, er_rule, pm_rule};

// An instruction ends. PU, PD, PA and PR have done their work. A match and no table of functions: rules with numbers and without have other types.
pub fn end_rule(c: Core, op: usize, n: Numbers) -> Acted
    requires { ValidCore c × Small n }
    ensures { result ≡ R.end_rule c op n }
{
    match op {
        IN => in_rule(c),
        DF => df_rule(c),
        EP => ep_rule(c),
        IP => ip_rule(c, n),
        SC => sc_rule(c, n),
        IW => iw_rule(c, n),
        RO => ro_rule(c, n),
        SP => sp_rule(c, n),
        PM => pm_rule(c, n),
        CI => ci_rule(c, n),
        EA => ea_rule(c, n),
        ER => er_rule(c, n),
        AA => aa_rule(c, n),
        AR => ar_rule(c, n),
        OA => oa_rule(c),
        OP => op_rule(c),
        OW => ow_rule(c),
        OH => oh_rule(c),
        OE => oe_rule(c),
        _ => done(c, Action::Keep),
    }
}
