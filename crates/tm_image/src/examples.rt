//! Small whole files, and what the definitions make of them: theorems that guard the definitions.

ghost use Rattle.std.specs.Prelude.{◌≡◌, [], ◌∷◌, ◌++◌, Some, true, false, codes, replicate, is_ok, IsOkAnd};
ghost use Rattle.tm_kernel.specs.declared.spec.Action.TheVariants.{Nothing, Tick, Activate, Event};
ghost use Rattle.tm_lines.specs.declared.fault.Reason.{Reason};
ghost use Rattle.tm_rv.specs.declared.instr.Set.{Set};
ghost use Rattle.tm_image.specs.Load.{more_text};
ghost use Rattle.tm_image.specs.Image.{image_digest, image_of};
ghost use Rattle.tm_image.specs.Plan.{plan_of};
ghost use Rattle.tm_image.specs.Examples.{one_task, with_text, sixteen_tasks, sixteen_resources, sixteen_alarms, sixteen_boxes, greatest_rings};

/// What some plans say.
#[tactic(auto, unfolding(crate::specs::Plan::plan_of, tm_lines::specs::Numbers::number_in))]
pub fn plan_examples()
    ensures slices { plan_of (codes "tmplan 1\nslice 5 0\nslice 1048576 0x1f 1 02 3 0xFfffffff\n")
        ≡ Ok (record { length = 5; mask = 0; ports = 0 ∷ 0 ∷ 0 ∷ 0 ∷ [] } ∷ record { length = 1048576; mask = 31; ports = 1 ∷ 2 ∷ 3 ∷ 4294967295 ∷ [] } ∷ []) }
    ensures none { plan_of (codes "tmplan 1") ≡ Ok [] }
    ensures skipped { plan_of (codes "\n # a note\r\n\ttmplan\t1 \r\n\r") ≡ Ok [] }
    ensures empty { plan_of [] ≡ Err (record { line = 1; reason = Reason.Missing }) }
    ensures no_header { plan_of (codes "\n# a note\n") ≡ Err (record { line = 3; reason = Reason.Missing }) }
    ensures other_header { plan_of (codes "\ntmplan 01\n") ≡ Err (record { line = 2; reason = Reason.Form }) }
    ensures header_alone { plan_of (codes "tmplan 1\ntmplan 1\n") ≡ Err (record { line = 2; reason = Reason.Form }) }
    ensures three_ports { plan_of (codes "tmplan 1\nslice 5 0 1 2 3\n") ≡ Err (record { line = 2; reason = Reason.Form }) }
    ensures upper_prefix { plan_of (codes "tmplan 1\nslice 5 0X2\n") ≡ Err (record { line = 2; reason = Reason.Number }) }
    ensures eleven_digits { plan_of (codes "tmplan 1\nslice 00000000005 0\n") ≡ Err (record { line = 2; reason = Reason.Number }) }
    ensures two_to_32 { plan_of (codes "tmplan 1\nslice 4294967296 0\n") ≡ Err (record { line = 2; reason = Reason.Number }) }
    ensures number_first { plan_of (codes "tmplan 1\nslice 1048577 x\n") ≡ Err (record { line = 2; reason = Reason.Number }) }
    ensures return_inside { plan_of (13 ∷ 10 ∷ codes "tmplan 1\nslice 5\r 0\n") ≡ Err (record { line = 3; reason = Reason.Form }) }
{}

/// What an image says, and why some texts are none.
#[tactic(auto, unfolding(crate::specs::Image::image_of, crate::specs::Image::draft_of, tm_lines::specs::Numbers::number_in, tm_lines::specs::Numbers::word_in))]
pub fn image_examples()
    ensures all_keywords { let text = codes "tmi 1\ntask 0 extended 9 auto 4 3\ntext 0 00000013 0000006F\ntext 0 ffffffff\ndata 0 1 00000007 00000008\ndata 0 2 00000009\ntask 1 basic 1 off 0 1\ntext 1 00000073\nresource 0 0 1\nalarm 0 event 0 3\nalarm 1 activate 1\nbox 0 64\nline 3 tick\nline 15 activate 1\nring data 65536\nring checks 64\n" in
        image_of text ≡ Ok (record {
          digest = image_digest text;
          set = Set.Base;
          spec = record {
            tasks = record { extended = true; priority = 9; auto = true } ∷ record { extended = false; priority = 1; auto = false } ∷ [];
            users = 3 ∷ [];
            alarms = Event 0 3 ∷ Activate 1 ∷ [];
            boxes = 64 ∷ [];
            lines = replicate 3 Nothing ++ Tick ∷ replicate 11 Nothing ++ Activate 1 ∷ [];
          };
          loads =
              record { entry = 4; text = 19 ∷ 111 ∷ 4294967295 ∷ []; set = Set.Base; words = 0 ∷ 7 ∷ 9 ∷ [] }
              ∷ record { entry = 0; text = 115 ∷ []; set = Set.Base; words = 0 ∷ [] } ∷ [];
          caps = record { control = 256; logs = 65536; outputs = 256; checks = 64 };
        }) }
    ensures no_task { image_of (codes "tmi 1\n") ≡ Err (record { line = 2; reason = Reason.Missing }) }
    ensures no_text { image_of (codes "tmi 1\ntask 0 basic 1 auto 0 1") ≡ Err (record { line = 3; reason = Reason.Missing }) }
    ensures version_2 { image_of (codes "tmi 2\n") ≡ Err (record { line = 2; reason = Reason.Missing }) }
    ensures other_header { image_of (codes "tmi 3\n") ≡ Err (record { line = 1; reason = Reason.Form }) }
    ensures entry_outside { image_of (codes "tmi 1\ntask 0 basic 1 auto 4 1\ntext 0 00000013") ≡ Err (record { line = 4; reason = Reason.Range }) }
    ensures text_wanted_first { image_of (codes "tmi 1\ntask 0 basic 1 auto 4 1\ntext 0 00000013\ntask 1 basic 2 auto 0 1\n") ≡ Err (record { line = 5; reason = Reason.Missing }) }
    ensures priority_zero { image_of (codes "tmi 1\ntask 0 basic 0 auto 0 1\n") ≡ Err (record { line = 2; reason = Reason.Range }) }
    ensures priority_number { image_of (codes "tmi 1\ntask 0 basic 0x auto 2 1\n") ≡ Err (record { line = 2; reason = Reason.Number }) }
    ensures number_skipped { image_of (codes "tmi 1\ntask 1 basic 1 auto 0 1\n") ≡ Err (record { line = 2; reason = Reason.Range }) }
    ensures entry_unaligned { image_of (codes "tmi 1\ntask 0 basic 1 auto 2 1\n") ≡ Err (record { line = 2; reason = Reason.Range }) }
    ensures no_words { image_of (codes "tmi 1\ntask 0 basic 1 auto 0 0\n") ≡ Err (record { line = 2; reason = Reason.Range }) }
    ensures repeated_priority { image_of (one_task ++ codes "task 1 basic 1 auto 0 1\n") ≡ Err (record { line = 4; reason = Reason.Repeated }) }
    ensures repeated_number { image_of (one_task ++ codes "task 0 basic 2 auto 0 1\n") ≡ Err (record { line = 4; reason = Reason.Repeated }) }
    ensures seven_digits { image_of (one_task ++ codes "text 0 0000013\n") ≡ Err (record { line = 4; reason = Reason.Number }) }
    ensures past_the_words { image_of (one_task ++ codes "data 0 1 00000001\n") ≡ Err (record { line = 4; reason = Reason.Range }) }
    ensures no_data { image_of (one_task ++ codes "data 0 0\n") ≡ Err (record { line = 4; reason = Reason.Form }) }
    ensures user_twice { image_of (one_task ++ codes "resource 0 0 0\n") ≡ Err (record { line = 4; reason = Reason.Repeated }) }
    ensures no_such_user { image_of (one_task ++ codes "resource 0 0 0 1\n") ≡ Err (record { line = 4; reason = Reason.Range }) }
    ensures alarm_that_ticks { image_of (one_task ++ codes "alarm 0 tick\n") ≡ Err (record { line = 4; reason = Reason.Form }) }
    ensures line_twice { image_of (one_task ++ codes "line 3 tick\nline 3 activate 0\n") ≡ Err (record { line = 5; reason = Reason.Repeated }) }
    ensures line_without_action { image_of (one_task ++ codes "line 3\n") ≡ Err (record { line = 4; reason = Reason.Form }) }
    ensures ring_twice { image_of (one_task ++ codes "ring data 1\nring data 2\n") ≡ Err (record { line = 5; reason = Reason.Repeated }) }
    ensures no_such_ring { image_of (one_task ++ codes "ring log 1\n") ≡ Err (record { line = 4; reason = Reason.Form }) }
{}

/// The last line of a plan that is within its limits, and the first that is not.
#[tactic(auto, unfolding(crate::specs::Plan::plan_of, tm_lines::specs::Numbers::number_in))]
pub fn plan_limits()
    ensures slice { plan_of (codes "tmplan 1\nslice 1048576 0xffff\n") ≡ Ok (record { length = 1048576; mask = 65535; ports = 0 ∷ 0 ∷ 0 ∷ 0 ∷ [] } ∷ []) }
    ensures longer { plan_of (codes "tmplan 1\nslice 1048577 0\n") ≡ Err (record { line = 2; reason = Reason.Range }) }
    ensures mask_of_17 { plan_of (codes "tmplan 1\nslice 5 0x10000\n") ≡ Err (record { line = 2; reason = Reason.Range }) }
{}

/// The last line of an image that is within its limits, and the first that is not.
#[tactic(auto, unfolding(crate::specs::Image::image_of, crate::specs::Image::draft_of, tm_lines::specs::Numbers::number_in, tm_lines::specs::Numbers::word_in))]
pub fn image_limits()
    ensures tasks { image_of sixteen_tasks ≡ Err (record { line = 18; reason = Reason.Missing }) }
    ensures more_tasks { image_of (sixteen_tasks ++ codes "task 16 basic 17 auto 0 1\n") ≡ Err (record { line = 18; reason = Reason.Limit }) }
    ensures resources { is_ok (image_of (one_task ++ sixteen_resources)) ≡ true }
    ensures more_resources { image_of (one_task ++ sixteen_resources ++ codes "resource 16 0\n") ≡ Err (record { line = 20; reason = Reason.Limit }) }
    ensures alarms { is_ok (image_of (one_task ++ sixteen_alarms)) ≡ true }
    ensures more_alarms { image_of (one_task ++ sixteen_alarms ++ codes "alarm 16 activate 0\n") ≡ Err (record { line = 20; reason = Reason.Limit }) }
    ensures boxes { is_ok (image_of (one_task ++ sixteen_boxes)) ≡ true }
    ensures more_boxes { image_of (one_task ++ sixteen_boxes ++ codes "box 16 1\n") ≡ Err (record { line = 20; reason = Reason.Limit }) }
    ensures larger_box { image_of (one_task ++ codes "box 0 65\n") ≡ Err (record { line = 4; reason = Reason.Range }) }
    ensures priority { is_ok (image_of (codes "tmi 1\ntask 0 basic 255 auto 0 1\ntext 0 0000006f\n")) ≡ true }
    ensures greater_priority { image_of (codes "tmi 1\ntask 0 basic 256 auto 0 1\n") ≡ Err (record { line = 2; reason = Reason.Range }) }
    ensures words { is_ok (image_of (codes "tmi 1\ntask 0 basic 1 auto 0 16384\ntext 0 0000006f\n")) ≡ true }
    ensures more_words { image_of (codes "tmi 1\ntask 0 basic 1 auto 0 16385\n") ≡ Err (record { line = 2; reason = Reason.Range }) }
    ensures text { is_ok (more_text (0 ∷ []) (with_text 16383)) ≡ true }
    ensures more_text { more_text (0 ∷ []) (with_text 16384) ≡ Err Reason.Limit }
    ensures line { is_ok (image_of (one_task ++ codes "line 15 tick\n")) ≡ true }
    ensures greater_line { image_of (one_task ++ codes "line 16 tick\n") ≡ Err (record { line = 4; reason = Reason.Range }) }
    ensures rings { IsOkAnd (image_of (one_task ++ greatest_rings)) (λ image. image.caps ≡ record { control = 65536; logs = 65536; outputs = 65536; checks = 64 }) }
    ensures greater_control { image_of (one_task ++ codes "ring control 65537\n") ≡ Err (record { line = 4; reason = Reason.Range }) }
    ensures greater_data { image_of (one_task ++ codes "ring data 65537\n") ≡ Err (record { line = 4; reason = Reason.Range }) }
    ensures greater_outputs { image_of (one_task ++ codes "ring outputs 65537\n") ≡ Err (record { line = 4; reason = Reason.Range }) }
    ensures greater_checks { image_of (one_task ++ codes "ring checks 65\n") ≡ Err (record { line = 4; reason = Reason.Range }) }
{}
