ghost use Rattle.sys_flow.specs.Laws.{EdgesAlone, OneArrowEach, OneBoxEach};

/// A picture has a box for each object, and an arrow for each edge and for nothing else.
pub fn drawing_laws()
    ensures boxes { OneBoxEach }
    ensures arrows { OneArrowEach }
    ensures edges { EdgesAlone }
{}
