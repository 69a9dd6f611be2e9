// The limit on nesting: how many control-flow nodes may stand in one another.
ghost use Rattle.std.specs.Prelude.{◌≡◌, ◌≤◌, is_some, IfSome};
ghost use Rattle.grammar.specs.Block.{MAX_CONTROL_FLOW_NESTING, limit_allowed};

// The largest limit, and the unit's.
pub const MAX_CONTROL_FLOW_NESTING: u16 = 256;

// A limit from 1 to 256. It is part of the parser's state, and goes with the depth by value.
#[derive(Clone, Copy)]
pub struct NestingLimit {
    pub forms: u16,
    ghost in_range: { (1 ≤ forms) × (forms ≤ MAX_CONTROL_FLOW_NESTING) },
}

impl NestingLimit {
    // `None` for 0 and for all above 256, of 64 bits: a number is tested before it is cut.
    pub fn new(limit: u64) -> Option<NestingLimit>
        ensures allowed { is_some result ≡ limit_allowed limit }
        ensures same { IfSome result (λ l. l.forms ≡ limit) }
    {
        if limit == 0 || u64::from(MAX_CONTROL_FLOW_NESTING) < limit {
            return None;
        }
        Some(NestingLimit {
            forms: limit as u16,
        })
    }
}
