//! Lists of serializer calls. A call here writes its whole list or nothing.

pub use sfv_serializer::script::{
    ItemCalls, MemberCalls, ParamCall, run_dict, run_dict_for, run_item, run_item_for, run_list,
    run_list_for,
};
