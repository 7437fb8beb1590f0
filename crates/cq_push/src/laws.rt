//! The law of pushouts. It is the contract of a function that does nothing.
ghost use Rattle.std.specs.Prelude.{◌≡◌, length};
ghost use Rattle.cq_theory.specs.Tables.{Tables, Assignment, Holds, meaning_of};
ghost use Rattle.cq_theory.specs.declared.term.Term.{Term};
ghost use Rattle.cq_instance.specs.InstanceData.{InstanceData};
ghost use Rattle.cq_instance.specs.declared.transform.Transform.{Transform};
ghost use Rattle.cq_transform.specs.Transforms.{GoesFrom};
ghost use Rattle.cq_transform.specs.Gluing.{pushout_of};
ghost use Rattle.cq_push.specs.Ways.{through_left, through_right};

/// In each model in which a gluing holds, so in its term model too, the two ways from the start agree: each generator
/// of the start stands for the same through the left as through the right, and so each term over them means the same.
pub fn ways_agree()
    ensures generators { (to_left to_right : Transform) (start left right : InstanceData)
        → GoesFrom to_left start left → GoesFrom to_right start right → (M : Tables) (A : Assignment)
        → Holds start.schema (pushout_of to_left to_right left.presentation right.presentation) M A
        → through_left M A to_left.images ≡ through_right (length left.presentation.generators) M A to_right.images }
    ensures terms { (to_left to_right : Transform) (start left right : InstanceData)
        → GoesFrom to_left start left → GoesFrom to_right start right → (M : Tables) (A : Assignment)
        → Holds start.schema (pushout_of to_left to_right left.presentation right.presentation) M A
        → (t : Term) → meaning_of M (through_left M A to_left.images) t
        ≡ meaning_of M (through_right (length left.presentation.generators) M A to_right.images) t }
{}
