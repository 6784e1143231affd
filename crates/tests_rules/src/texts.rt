//! The data files that tests run on.

/// The moves and species of `data/small/dex.json`, over the types that they have: Body Slam, Hyper Beam, Blizzard, Earthquake,
/// Quick Attack, Tackle, Rest and Soft-Boiled are 0 to 7, and Tauros, Snorlax, Chansey and Jynx 0 to 3.
pub(crate) const SMALL_DEX: &str =
    r#"{"types":[{"name":"Normal","special":false},{"name":"Ground","special":false},
{"name":"Ghost","special":false},{"name":"Psychic","special":true},{"name":"Ice","special":true}],
"factors":[["Ghost","Normal",0],["Normal","Ghost",0],["Ice","Ice",5]],"moves":[
{"name":"Body Slam","type":"Normal","power":85,"accuracy":100,"pp":24,"priority":0,"effect":{"kind":"status","status":"par","chance":77}},
{"name":"Hyper Beam","type":"Normal","power":150,"accuracy":90,"pp":8,"priority":0,"effect":{"kind":"recharge"}},
{"name":"Blizzard","type":"Ice","power":120,"accuracy":90,"pp":8,"priority":0,"effect":{"kind":"status","status":"frz","chance":26}},
{"name":"Earthquake","type":"Ground","power":100,"accuracy":100,"pp":16,"priority":0},
{"name":"Quick Attack","type":"Normal","power":40,"accuracy":100,"pp":48,"priority":1},
{"name":"Tackle","type":"Normal","power":35,"accuracy":95,"pp":56,"priority":0},
{"name":"Rest","type":"Psychic","power":0,"accuracy":0,"pp":16,"priority":0,"effect":{"kind":"rest"}},
{"name":"Soft-Boiled","type":"Normal","power":0,"accuracy":0,"pp":16,"priority":0,"effect":{"kind":"heal"}}],"species":[
{"name":"Tauros","types":["Normal"],"stats":[75,100,95,70,110],
"learns":["bodyslam","hyperbeam","blizzard","earthquake","quickattack","tackle"]},
{"name":"Snorlax","types":["Normal"],"stats":[160,110,65,65,30],"learns":["bodyslam","rest","earthquake","hyperbeam"]},
{"name":"Chansey","types":["Normal"],"stats":[250,5,5,105,50],"learns":["softboiled","blizzard"]},
{"name":"Jynx","types":["Ice","Psychic"],"stats":[65,50,35,95,95],"learns":["blizzard","rest"]}]}"#;

/// The configuration of `data/small/config.json`: one format, of which the first battle has the seed 0.
pub(crate) const SMALL_CONFIG: &str =
    r#"{"formats":[{"name":"[Gen 1] OU","rules":["speciesclause"]}],"seeds":[0]}"#;

/// One move, Body Slam, and one species that learns it, Tauros.
pub(crate) const ONE_MOVE_DEX: &str = r#"{"types":[{"name":"Normal","special":false}],
"moves":[{"name":"Body Slam","type":"Normal","power":85,"accuracy":100,"pp":24,"priority":0}],
"species":[{"name":"Tauros","types":["Normal"],"stats":[75,100,95,70,110],"learns":["bodyslam"]}]}"#;
